// Guards and actions of 000 Table 40.
ghost use Rattle.std.specs.Prelude.{◌≡◌};
ghost use Rattle.fs_device.specs.Table40 as table40;

use crate::{Device, Row};
use scl::{Check, Request};

// After an accepted block with its reading.
pub fn first(at: u32) -> Device
    ensures { result ≡ table40.first_device at }
{
    Device {
        state: 21,
        SDcycles: 3,
        CommErrCount: 0,
        TimeoutCount: 0,
        DCommErr: false,
        DTimeout: false,
        SDset: true,
        setSD_DC: true,
        ChFAckReq_DC: false,
        DCount_i: 0,
        MCount: 0,
        DTimer: at,
        runs: false,
        released: false,
        responded: false,
    }
}

impl Device {
    // DTimeout: T31 from 24, T30 from 26.
    #[tactic(auto, unfolding(crate::specs::Table40::watchdog_row))]
    pub(crate) fn watchdog_row(self, w: u16, at: u32) -> Option<Row>
        ensures { result ≡ table40.watchdog_row self w at }
    {
        if !(self.runs & scl::expired(at, self.DTimer, w)) {
            return None;
        }
        match self.state {
            24 => Some(Row::T31),
            26 => Some(Row::T30),
            _ => None,
        }
    }

    pub(crate) fn is_old(self, q: Request) -> bool
        ensures { result ≡ table40.is_old self q }
    {
        !q.all_zero & matches!(self.state, 24 | 26) & (q.MCount == self.MCount)
    }

    #[tactic(auto, unfolding(crate::specs::Table40::is_admitted))]
    pub(crate) fn is_admitted(self, q: Request, old: bool) -> bool
        requires { old ≡ table40.is_old self q }
        ensures { result ≡ table40.is_admitted self q }
    {
        let waits = matches!(self.state, 21 | 24 | 26);
        !q.all_zero & waits & !old
    }

    #[tactic(auto, unfolding(crate::specs::Table40::checked))]
    pub(crate) fn checked(self, q: Request) -> Option<Check>
        ensures { result ≡ table40.checked self q }
    {
        let expected = scl::count_after(self.MCount);
        scl::first_failed(
            q.signature_holds,
            q.port_holds,
            (q.MCount == 0) | (q.MCount == expected),
        )
    }

    #[tactic(auto, unfolding(crate::specs::Table40::arrival_row))]
    pub(crate) fn arrival_row(self, CommErr: bool) -> Row
        ensures { result ≡ table40.arrival_row self CommErr }
    {
        let waits = CommErr | (self.SDcycles != 0);
        if self.state == 26 {
            if waits { Row::T29 } else { Row::T28 }
        } else {
            if CommErr { Row::T25 } else { Row::T22 }
        }
    }

    #[tactic(auto, unfolding(crate::specs::Table40::admitted))]
    pub(crate) fn admitted(self, q: Request) -> Device
        ensures { result ≡ table40.admitted self q }
    {
        Device {
            MCount: q.MCount,
            ChFAckReq_DC: q.ChFAckReq,
            ..self
        }
    }

    #[tactic(auto, unfolding(crate::specs::Table40::t22))]
    fn t22(self, at: u32, setSD: bool) -> Device
        ensures { result ≡ table40.t22 self at setSD }
    {
        let counting = self.SDcycles != 0;
        Device {
            responded: true,
            DCommErr: false,
            DTimeout: false,
            DCount_i: scl::inverted_count(self.MCount),
            DTimer: at,
            runs: true,
            released: !counting & !setSD,
            setSD_DC: counting | setSD,
            SDset: counting,
            SDcycles: self.SDcycles.saturating_sub(1),
            state: 24,
            ..self
        }
    }

    #[tactic(auto, unfolding(crate::specs::Table40::t25))]
    fn t25(self, at: u32) -> Device
        ensures { result ≡ table40.t25 self at }
    {
        Device {
            responded: true,
            released: false,
            SDset: true,
            DCommErr: true,
            CommErrCount: 1,
            DCount_i: scl::inverted_count(self.MCount),
            SDcycles: 3,
            DTimer: at,
            runs: true,
            state: 26,
            ..self
        }
    }

    #[tactic(auto, unfolding(crate::specs::Table40::t28))]
    fn t28(self, at: u32) -> Device
        ensures { result ≡ table40.t28 self at }
    {
        Device {
            responded: true,
            released: false,
            setSD_DC: false,
            SDset: false,
            DCount_i: scl::inverted_count(self.MCount),
            DCommErr: false,
            DTimeout: false,
            DTimer: at,
            runs: true,
            state: 24,
            ..self
        }
    }

    #[tactic(auto, unfolding(crate::specs::Table40::t29))]
    fn t29(self, at: u32, CommErr: bool) -> Device
        ensures { result ≡ table40.t29 self at CommErr }
    {
        let left = self.SDcycles.saturating_sub(1);
        let errors = if CommErr { 1 } else { self.CommErrCount };
        let timed_out = self.TimeoutCount == 1;
        Device {
            responded: true,
            released: false,
            setSD_DC: true,
            SDset: true,
            DCount_i: scl::inverted_count(self.MCount),
            DTimer: at,
            runs: true,
            SDcycles: if CommErr { 3 } else { left },
            DCommErr: errors == 1,
            CommErrCount: if errors == 1 { 0 } else { errors },
            DTimeout: timed_out,
            TimeoutCount: if timed_out { 0 } else { self.TimeoutCount },
            state: 26,
            ..self
        }
    }

    #[tactic(auto, unfolding(crate::specs::Table40::t30t31))]
    fn t30_t31(self, at: u32) -> Device
        ensures { result ≡ table40.t30t31 self at }
    {
        Device {
            responded: true,
            released: false,
            setSD_DC: true,
            SDset: true,
            DTimeout: true,
            TimeoutCount: 1,
            SDcycles: 3,
            DTimer: at,
            runs: true,
            DCount_i: scl::inverted_count(self.MCount),
            state: 26,
            ..self
        }
    }

    #[tactic(auto, unfolding(crate::specs::Table40::acted))]
    pub(crate) fn acted(self, row: Row, at: u32, setSD: bool, CommErr: bool) -> Device
        ensures { result ≡ table40.acted self row at setSD CommErr }
    {
        match row {
            Row::T22 => self.t22(at, setSD),
            Row::T25 => self.t25(at),
            Row::T28 => self.t28(at),
            Row::T29 => self.t29(at, CommErr),
            Row::T30 | Row::T31 => self.t30_t31(at),
        }
    }
}

// The number of a row outside, 0 for none. fs_master has its own, of its own rows: a trait over both would be longer than the line.
pub fn row_number(row: Option<Row>) -> u8
    ensures { result ≡ table40.row_number_of row }
{
    row.map_or(0, |row| row as u8)
}
