use crate::same::Same;
use sp_model::{
    AccessDecl, ColumnDecl, Declaration, FunctionDecl, GetDecl, KeyDecl, ListDecl, TableDecl,
};

impl Same for ColumnDecl {
    fn same(&self, other: &ColumnDecl) -> bool {
        self.name == other.name
            && self.kind == other.kind
            && self.function.same(&other.function)
            && self.field == other.field
    }
}

impl Same for KeyDecl {
    fn same(&self, other: &KeyDecl) -> bool {
        self.column == other.column
            && self.operators.same(&other.operators)
            && self.need == other.need
            && self.matching == other.matching
    }
}

impl Same for AccessDecl {
    fn same(&self, other: &AccessDecl) -> bool {
        self.function == other.function
            && self.tags.same(&other.tags)
            && self.ignore.same(&other.ignore)
            && self.retry.same(&other.retry)
    }
}

impl Same for ListDecl {
    fn same(&self, other: &ListDecl) -> bool {
        self.function == other.function
            && self.keys.same(&other.keys)
            && self.parent.same(&other.parent)
            && self.tags.same(&other.tags)
            && self.ignore.same(&other.ignore)
            && self.retry.same(&other.retry)
    }
}

impl Same for GetDecl {
    fn same(&self, other: &GetDecl) -> bool {
        self.function == other.function
            && self.keys.same(&other.keys)
            && self.tags.same(&other.tags)
            && self.ignore.same(&other.ignore)
            && self.retry.same(&other.retry)
    }
}

impl Same for FunctionDecl {
    fn same(&self, other: &FunctionDecl) -> bool {
        self.name == other.name
            && self.depends.same(&other.depends)
            && self.tags.same(&other.tags)
            && self.ignore.same(&other.ignore)
            && self.retry.same(&other.retry)
    }
}

impl Same for TableDecl {
    fn same(&self, other: &TableDecl) -> bool {
        self.name == other.name
            && self.columns.same(&other.columns)
            && self.list.same(&other.list)
            && self.get.same(&other.get)
            && self.functions.same(&other.functions)
            && self.ignore.same(&other.ignore)
            && self.retry.same(&other.retry)
            && self.plugin.same(&other.plugin)
    }
}

impl Same for Declaration {
    fn same(&self, other: &Declaration) -> bool {
        self.tables.same(&other.tables)
            && self.ignore.same(&other.ignore)
            && self.retry.same(&other.retry)
    }
}
