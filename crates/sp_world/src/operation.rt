/// What a request line asks for.
#[derive(Clone, Copy, PartialEq, Eq)]
pub enum Operation {
    Declare,
    Version,
    List,
    Parents,
    Get,
    Hydrate,
}
