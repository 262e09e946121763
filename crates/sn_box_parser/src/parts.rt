//! The parts of a box, as far as they are read.
ghost use Rattle.std.specs.Prelude.{◌≡◌, IfOk};
ghost use Rattle.sn_ast.specs.BoxExprs.{sequence_of, with_step};
ghost use Rattle.sn_ast.specs.Declarations.{box_of, function_of, with_body};
ghost use Rattle.sn_ast.specs.Kept.{kept};
ghost use Rattle.sn_ast.specs.Rows.{append, with_part};

use sn_ast::measure::{append, join, no_row, raise};
use sn_ast::{BExpr, BForm, BoxDecl, Decl, FunDecl, Ident, Kept, Seq, Tuple};
use sn_list::Memory;
use std::alloc::Global;

/// A box's name, its input, and its outputs so far.
pub struct Head {
    pub name: Ident,
    pub input: Tuple,
    pub outputs: Seq<Tuple>,
}

/// Written out, so that whoever gives a head up calls this, and is not proved over each part of it.
impl Drop for Head {
    fn drop(self) {
        let Head {
            name: _name,
            input: _input,
            outputs: _outputs,
        } = self;
    }
}

/// A box whose body is read, and the functions so far.
pub struct Opened {
    pub head: Head,
    pub functions: Kept<Seq<FunDecl>>,
}

/// Written out, so that whoever gives an open box up calls this, and is not proved over each part of it.
impl Drop for Opened {
    fn drop(self) {
        let Opened {
            head: _head,
            functions: _functions,
        } = self;
    }
}

/// A function's name, and its parameters so far.
pub struct Function {
    pub name: Ident,
    pub params: Seq<Ident>,
}

/// Written out, so that whoever gives a function up calls this, and is not proved over each part of it.
impl Drop for Function {
    fn drop(self) {
        let Function {
            name: _name,
            params: _params,
        } = self;
    }
}

/// The place of a body's sequence, and its parts so far, if there are any.
pub struct Sequence {
    pub at: u32,
    pub so_far: Option<Kept<Seq<BExpr>>>,
}

/// Written out, so that whoever gives a sequence up calls this, and is not proved over each part of it.
impl Drop for Sequence {
    fn drop(self) {
        let Sequence {
            at: _at,
            so_far: _so_far,
        } = self;
    }
}

impl Function {
    pub fn with_param(self, param: Ident) -> Result<Function, Memory>
        ensures { IfOk result (λ r. r ≡ record self { params = append self.params param }) }
    {
        let Function { name, params } = self;
        let mut params = params;
        sn_stack::append(&mut params, param)?;
        Ok(Function { name, params })
    }

    pub fn with_body(self, body: Kept<BExpr>) -> Kept<FunDecl>
        ensures { result ≡ kept.each (function_of self.name self.params) body }
    {
        let (body, measure) = body?.into_parts();
        let Function { name, params } = self;
        Some(measure.with(FunDecl { name, params, body }))
    }
}

impl Head {
    pub fn with_output(self, output: Tuple) -> Result<Head, Memory>
        ensures { IfOk result (λ r. r ≡ record self { outputs = append self.outputs output }) }
    {
        let Head {
            name,
            input,
            outputs,
        } = self;
        let mut outputs = outputs;
        sn_stack::append(&mut outputs, output)?;
        Ok(Head {
            name,
            input,
            outputs,
        })
    }

    fn with_body(self, funs: Seq<FunDecl>, body: BExpr) -> Decl
        ensures { result ≡ box_of self.name self.input self.outputs funs body }
    {
        let Head {
            name,
            input,
            outputs,
        } = self;
        Decl::BoxDecl(BoxDecl {
            name,
            input,
            outputs,
            funs,
            body,
        })
    }
}

impl Opened {
    pub fn with_function(self, function: Kept<FunDecl>) -> Result<Opened, Memory>
        ensures { IfOk result (λ r. r ≡ record self { functions = with_part kept self.functions function }) }
    {
        let Opened { head, functions } = self;
        let functions = append(functions, function)?;
        Ok(Opened { head, functions })
    }

    pub fn with_body(self, body: Kept<BExpr>) -> Kept<Decl>
        ensures { result ≡ with_body kept self.head.name self.head.input self.head.outputs self.functions body }
    {
        let Opened { head, functions } = self;
        let both = join(functions, body)?;
        let ((funs, body), measure) = both.into_parts();
        raise(Some(measure.with(head.with_body(funs, body))))
    }
}

impl Sequence {
    /// The sequence with one more part, which is not its last.
    pub fn with_part(self, alloc: Global, part: Kept<BExpr>) -> Result<Sequence, Memory>
        ensures { IfOk result (λ r. r ≡ record self { so_far = with_step kept self.so_far part }) }
    {
        let Sequence { at, so_far } = self;
        let row = match so_far {
            None => no_row(alloc),
            Some(row) => row,
        };
        let row = append(row, part)?;
        Ok(Sequence {
            at,
            so_far: Some(row),
        })
    }

    /// The sequence whose last part is `part`, or `part` alone where none stand before it.
    pub fn ended(self, part: Kept<BExpr>) -> Result<Kept<BExpr>, Memory>
        ensures { IfOk result (λ r. r ≡ sequence_of kept self.at self.so_far part) }
    {
        let Sequence { at, so_far } = self;
        let Some(so_far) = so_far else {
            return Ok(part);
        };
        let Some(row) = append(so_far, part)? else {
            return Ok(None);
        };
        let (row, measure) = row.into_parts();
        Ok(raise(Some(measure.with(BExpr {
            at,
            form: BForm::Seq(row),
        }))))
    }
}
