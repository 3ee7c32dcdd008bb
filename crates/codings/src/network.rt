// The network of an entry in a list of networks. An entry is a network or none: an unused one.
#[derive(Clone, Copy, Debug, PartialEq, Eq)]
pub struct Network {
    pub mcc: u16,
    pub mnc: u16,
    pub digits: u8,
}
