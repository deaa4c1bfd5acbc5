//! The declared names of a program.
use crate::alias_table::AliasTable;
use crate::fun_table::FunTable;
use crate::target_table::TargetTable;
use crate::type_table::TypeTable;

/// The aliases, the targets of pointers, the types of the aliases, and the functions of a program, each in text order.
#[derive(Drop)]
pub struct Tables<'a> {
    /// The aliases, with their written types.
    pub aliases: AliasTable<'a>,
    /// The targets of pointers, in the order in which they are first seen.
    pub targets: TargetTable<'a>,
    /// The types of the aliases.
    pub types: TypeTable<'a>,
    /// The functions.
    pub funs: FunTable<'a>,
}
