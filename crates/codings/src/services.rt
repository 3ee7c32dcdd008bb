// The service table: two bits a service, four services a byte.
#[derive(Clone, Copy, Debug, PartialEq, Eq)]
pub enum Service {
    NotAllocated,
    Allocated,
    Activated,
}
