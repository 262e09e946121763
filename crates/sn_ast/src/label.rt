use sn_list::Seq;

/// Bytes of a name, or of what a text says.
pub type Text = Seq<u8>;

/// A name and its place. The place of a tag's name is that of its `<`.
#[derive(Drop)]
pub struct Ident {
    pub text: Text,
    pub at: u32,
}

/// A field, or a tag.
#[derive(Drop)]
pub struct LabelAt {
    pub tag: bool,
    pub name: Ident,
}

/// `{a, <b>}`, and the place of its `{`.
#[derive(Drop)]
pub struct Variant {
    pub labels: Seq<LabelAt>,
    pub at: u32,
}

/// `(a, <b>)`, and the place of its `(`.
#[derive(Drop)]
pub struct Tuple {
    pub labels: Seq<LabelAt>,
    pub at: u32,
}

/// A part of a type: a variant, or the name of a type.
#[derive(Drop)]
pub enum TypePart {
    Set(Variant),
    Named(Ident),
}

/// A type signature: an input and an output type, each as its parts, or the name of a signature.
#[derive(Drop)]
pub enum Sig {
    Arrow {
        input: Seq<TypePart>,
        output: Seq<TypePart>,
    },
    Named(Ident),
}
