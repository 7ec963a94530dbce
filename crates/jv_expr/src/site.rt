use jv_instance::Ty;
use jv_layout::Layout;
use jv_names::Spot;
use jv_tree::{Name, Names};
use sg_base::Scope;

/// Where an expression or a statement stands, and what is known there: the layout and its names; the file and the bodies around,
/// innermost first; the type of the innermost one; the bodies of which the place has an instance; the names that the type
/// extends; the blank final fields that may be assigned there; and what a `return` gives, where that is a value.
#[derive(Clone, Copy)]
pub struct Site<'a> {
    pub layout: &'a Layout,
    pub names: &'a Names,
    pub spot: &'a Spot,
    pub class: Scope,
    pub instances: &'a [Scope],
    pub extends: &'a [Name],
    pub blanks: &'a [Scope],
    pub result: Option<Ty>,
}
