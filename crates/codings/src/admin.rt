// The administrative data: mode of operation, and length of the MNC in the IMSI, if it is there.
#[derive(Clone, Copy, Debug, PartialEq, Eq)]
pub struct Setting {
    pub mode: u8,
    pub mnc: Option<u8>,
}
