// Guards and actions of 000 Table 38.
ghost use Rattle.std.specs.Prelude.{◌≡◌};
ghost use Rattle.fs_master.specs.Table38 as table38;

use crate::{Master, Row};
use scl::{Check, Response};

// After an accepted block with its reading.
pub fn first(at: u32) -> Master
    ensures { result ≡ table38.first_master at }
{
    Master {
        state: 2,
        MCount: 0,
        setSD: true,
        SDset_S: true,
        ChFAckReq: false,
        ChFAckReq_S: false,
        ChFAck_C_e: false,
        setSD_C: false,
        ChFAck_C: false,
        previous: false,
        carried: 0,
        awaited: 0,
        MTimer: at,
        runs: false,
        start: at,
        released: false,
    }
}

pub(crate) fn has_faults(MCommErr: bool, f: Response) -> bool
    ensures { result ≡ table38.has_faults MCommErr f }
{
    MCommErr | f.DCommErr | f.DTimeout
}

impl Master {
    // MTimeout: T8 from 5, T14 from 7.
    #[inline(always)]
    #[tactic(auto, unfolding(crate::specs::Table38::watchdog_row))]
    pub(crate) fn watchdog_row(self, w: u16, at: u32) -> Option<Row>
        ensures { result ≡ table38.watchdog_row self w at }
    {
        if !(self.runs & scl::expired(at, self.MTimer, w)) {
            return None;
        }
        match self.state {
            5 => Some(Row::T8),
            7 => Some(Row::T14),
            _ => None,
        }
    }

    pub(crate) fn is_expected(self, f: Response) -> bool
        ensures { result ≡ table38.is_expected self f }
    {
        f.DCount_i == scl::inverted_count(self.MCount)
    }

    #[tactic(auto, unfolding(crate::specs::Table38::is_old))]
    pub(crate) fn is_old(self, f: Response) -> bool
        ensures { result ≡ table38.is_old self f }
    {
        let count = f.DCount_i as u16;
        !f.all_zero & self.previous & ((count == self.carried) | (count == self.awaited))
    }

    #[tactic(auto, unfolding(crate::specs::Table38::is_admitted, crate::specs::Table38::is_old))]
    pub(crate) fn is_admitted(self, f: Response, old: bool) -> bool
        requires { old ≡ table38.is_old self f }
        ensures { result ≡ table38.is_admitted self f }
    {
        let restarted = self.MCount == 0;
        let expected = self.is_expected(f);
        let leads = match self.state {
            2 => expected,
            5 => !old,
            7 => !old | restarted & expected,
            _ => false,
        };
        !f.all_zero & leads
    }

    #[tactic(auto, unfolding(crate::specs::Table38::checked))]
    pub(crate) fn checked(self, f: Response) -> Option<Check>
        ensures { result ≡ table38.checked self f }
    {
        scl::first_failed(f.signature_holds, f.port_holds, self.is_expected(f))
    }

    #[tactic(auto, unfolding(crate::specs::Table38::from8))]
    fn from_check8(self, faults: bool) -> Row
        ensures { result ≡ table38.from8 self faults }
    {
        if faults {
            return Row::T12;
        }
        if self.ChFAck_C & self.ChFAck_C_e {
            Row::T11
        } else {
            Row::T13
        }
    }

    #[tactic(auto, unfolding(crate::specs::Table38::arrival_row, crate::specs::Table38::from8))]
    pub(crate) fn arrival_row(self, faults: bool) -> Row
        ensures { result ≡ table38.arrival_row self faults }
    {
        if self.state == 7 {
            return self.from_check8(faults);
        }
        if faults { Row::T7 } else { Row::T4 }
    }

    #[tactic(auto, unfolding(crate::specs::Table38::admitted))]
    pub(crate) fn admitted(self, f: Response) -> Master
        ensures { result ≡ table38.admitted self f }
    {
        Master {
            previous: true,
            carried: f.DCount_i as u16,
            awaited: scl::inverted_count(self.MCount) as u16,
            ..self
        }
    }

    #[tactic(auto, unfolding(crate::specs::Table38::start_from))]
    fn start_from(self, count: u8, at: u32) -> u32
        ensures { result ≡ table38.start_from self count at }
    {
        if count == self.MCount { self.start } else { at }
    }

    #[tactic(auto, unfolding(crate::specs::Table38::t4))]
    pub(crate) fn t4(self, at: u32, SDset: bool) -> Master
        ensures { result ≡ table38.t4 self at SDset }
    {
        let count = scl::count_after(self.MCount);
        Master {
            MCount: count,
            start: self.start_from(count, at),
            released: !(SDset | self.setSD_C),
            SDset_S: SDset | self.setSD_C,
            setSD: self.setSD_C,
            MTimer: at,
            runs: true,
            state: 5,
            ..self
        }
    }

    #[tactic(auto, unfolding(crate::specs::Table38::t7))]
    fn t7(self, at: u32) -> Master
        ensures { result ≡ table38.t7 self at }
    {
        let count = scl::count_after(self.MCount);
        Master {
            released: false,
            setSD: true,
            SDset_S: true,
            MCount: count,
            start: self.start_from(count, at),
            MTimer: at,
            runs: true,
            state: 7,
            ..self
        }
    }

    #[tactic(auto, unfolding(crate::specs::Table38::t8))]
    fn t8(self, at: u32) -> Master
        ensures { result ≡ table38.t8 self at }
    {
        Master {
            released: false,
            setSD: true,
            SDset_S: true,
            MCount: 0,
            start: self.start_from(0, at),
            MTimer: at,
            runs: true,
            state: 7,
            ..self
        }
    }

    // As T4, with the request taken back.
    #[tactic(auto, unfolding(crate::specs::Table38::t11, crate::specs::Table38::t4))]
    fn t11(self, at: u32, SDset: bool) -> Master
        ensures { result ≡ table38.t11 self at SDset }
    {
        Master {
            ChFAckReq: false,
            ChFAckReq_S: false,
            ChFAck_C_e: false,
            ..self.t4(at, SDset)
        }
    }

    // As T7, with the request taken back.
    #[tactic(auto, unfolding(crate::specs::Table38::t12, crate::specs::Table38::t7))]
    fn t12(self, at: u32) -> Master
        ensures { result ≡ table38.t12 self at }
    {
        Master {
            ChFAckReq: false,
            ChFAckReq_S: false,
            ChFAck_C_e: false,
            ..self.t7(at)
        }
    }

    // As T7, with the request made.
    #[tactic(auto, unfolding(crate::specs::Table38::t13, crate::specs::Table38::t7))]
    fn t13(self, at: u32) -> Master
        ensures { result ≡ table38.t13 self at }
    {
        Master {
            ChFAckReq: true,
            ChFAckReq_S: true,
            ChFAck_C_e: !self.ChFAck_C | self.ChFAck_C_e,
            ..self.t7(at)
        }
    }

    // As T8, with the request taken back.
    #[tactic(auto, unfolding(crate::specs::Table38::t14, crate::specs::Table38::t8))]
    fn t14(self, at: u32) -> Master
        ensures { result ≡ table38.t14 self at }
    {
        Master {
            ChFAckReq: false,
            ChFAckReq_S: false,
            ChFAck_C_e: false,
            ..self.t8(at)
        }
    }

    #[inline(always)]
    #[tactic(auto, unfolding(crate::specs::Table38::acted))]
    pub(crate) fn acted(self, row: Row, at: u32, SDset: bool) -> Master
        ensures { result ≡ table38.acted self row at SDset }
    {
        match row {
            Row::T4 => self.t4(at, SDset),
            Row::T7 => self.t7(at),
            Row::T8 => self.t8(at),
            Row::T11 => self.t11(at, SDset),
            Row::T12 => self.t12(at),
            Row::T13 => self.t13(at),
            Row::T14 => self.t14(at),
        }
    }

    #[tactic(auto, unfolding(crate::specs::Table38::signalled))]
    pub(crate) fn signalled(self, setSD_C: bool, ChFAck_C: bool) -> Master
        ensures { result ≡ table38.signalled self setSD_C ChFAck_C }
    {
        Master {
            setSD_C,
            ChFAck_C,
            ..self
        }
    }
}

// The number of a row outside, 0 for none. fs_device has its own, of its own rows: a trait over both would be longer than the line.
pub fn row_number(row: Option<Row>) -> u8
    ensures { result ≡ table38.row_number_of row }
{
    row.map_or(0, |row| row as u8)
}
