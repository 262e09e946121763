//! The net that is drawn.
use sn_ast::Decl;

/// The place of the name of the first net of that name with a signature, in the order of the source.
pub fn place_of(decls: &[Decl], name: &[u8]) -> Option<u32> {
    for decl in decls {
        if let Decl::NetDecl(net) = decl {
            if net.sig.is_some() && net.name.text.as_slice() == name {
                return Some(net.name.at);
            }
            if let Some(place) = place_of(net.decls.as_slice(), name) {
                return Some(place);
            }
        }
    }
    None
}
