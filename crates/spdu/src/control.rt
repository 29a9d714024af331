// What a control and a status octet say (000 Tables 31 and 32), and the octets. Reserved bits are sent as 0.
ghost use Rattle.std.specs.Prelude.{◌≡◌, ◌≤◌};
ghost use Rattle.spdu.specs.Built as built;

// What an FS-Master says beside its process octets.
#[derive(Clone, Copy)]
pub struct Control {
    pub MCount: u8,
    pub setSD: bool,
    pub ChFAckReq: bool,
}

// What an FS-Device says beside its process octets.
#[derive(Clone, Copy)]
pub struct Status {
    pub DCount_i: u8,
    pub SDset: bool,
    pub DCommErr: bool,
    pub DTimeout: bool,
}

fn bit(b: bool, weight: u8) -> u8
    ensures { (result ≡ built.bit_in b weight) × (result ≤ weight) }
{
    if b { weight } else { 0 }
}

// Both methods `octet` are private to the crate, which a `From` can't be.
impl Control {
    pub(crate) fn octet(self) -> u8
        ensures { result ≡ built.control_octet self.MCount self.setSD self.ChFAckReq }
    {
        self.MCount % 8 * 32 + bit(self.setSD, 2) + bit(self.ChFAckReq, 1)
    }
}

impl Status {
    pub(crate) fn octet(self) -> u8
        ensures { result ≡ built.status_octet self.DCount_i self.SDset self.DCommErr self.DTimeout }
    {
        self.DCount_i % 8 * 32 + bit(self.SDset, 4) + bit(self.DCommErr, 2) + bit(self.DTimeout, 1)
    }
}
