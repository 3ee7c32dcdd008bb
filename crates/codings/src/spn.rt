// The service provider's name, and the two bits before it as they stand.
use fields::bytes::Bytes;

#[derive(Clone, Copy)]
pub struct Provider {
    pub bit1: bool,
    pub bit2: bool,
    pub name: Bytes<16>,
}
