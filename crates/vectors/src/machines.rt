// The clock, and both machines talking: the sequences that 000 11.5.4 describes in words.
use crate::print::compared;
use fs_device::Device;
use fs_master::Master;
use scl::{Happening, Request, Response};
use std::fmt;
use std::fmt::Display;
use std::io::{Print, Stdout};

// Document 01: W 100.
const W: u16 = 100;

// Both machines, and where they are shown.
#[derive(Clone, Copy)]
struct Ends {
    output: Stdout,
    master: Master,
    device: Device,
}

impl Display for Ends {
    fn fmt<W: fmt::Write>(&self, f: &mut fmt::Formatter<W>) -> fmt::Result {
        let d = self.device;
        write!(
            f,
            "FS-Device {} DCount_i {} SDset {} DCommErr {} DTimeout {} PDout {}",
            d.state,
            d.DCount_i,
            u8::from(d.SDset),
            u8::from(d.DCommErr),
            u8::from(d.DTimeout),
            u8::from(d.released)
        )?;
        let m = self.master;
        write!(
            f,
            "; FS-Master {} MCount {} setSD {} SDset_S {} ChFAckReq_S {} PDin {}",
            m.state,
            m.MCount,
            u8::from(m.setSD),
            u8::from(m.SDset_S),
            u8::from(m.ChFAckReq_S),
            u8::from(m.released)
        )
    }
}

fn times(output: Stdout) {
    let elapsed = scl::elapsed(4, 4294967290);
    compared(output, "elapsed from 4294967290 to 4", elapsed, 10);
    let expired = u8::from(scl::expired(100, 0, W));
    compared(output, "W 100, elapsed 100: expired", expired, 0);
    let expired = u8::from(scl::expired(101, 0, W));
    compared(output, "W 100, elapsed 101: expired", expired, 1);
}

// What the FS-Master sends, damaged or not.
fn request(m: Master, damaged: bool) -> Request {
    Request {
        length: 8,
        MCount: m.MCount,
        setSD: m.setSD,
        ChFAckReq: m.ChFAckReq,
        port_holds: true,
        signature_holds: !damaged,
        all_zero: false,
        unused: 0,
    }
}

// What the FS-Device answers, damaged or not: zeros until it has prepared a response.
fn response(d: Device, damaged: bool) -> Response {
    Response {
        length: 8,
        DCount_i: d.DCount_i,
        SDset: d.SDset,
        DCommErr: d.DCommErr,
        DTimeout: d.DTimeout,
        port_holds: true,
        signature_holds: !damaged,
        all_zero: !d.responded,
        unused: 0,
    }
}

impl Ends {
    // Prints both, with the name of what happened and the reading that it came at.
    fn shown(self, name: &str, at: u32) -> Ends {
        let _ = self.output.println(format_args!("{name}, {at} ms: {self}"));
        self
    }

    fn at_device(self, happening: Happening) -> Ends {
        let device = fs_device::step(self.device, W, happening).device;
        Ends { device, ..self }
    }

    fn at_master(self, happening: Happening) -> Ends {
        let master = fs_master::step(self.master, W, happening).master;
        Ends { master, ..self }
    }

    // The FS-Master's SPDU arrives.
    fn sent(self, at: u32, damaged: bool) -> Ends {
        self.at_device(Happening::Request(at, request(self.master, damaged)))
    }

    // The FS-Device's answer arrives.
    fn answered(self, name: &str, at: u32, damaged: bool) -> Ends {
        self.at_master(Happening::Response(at, response(self.device, damaged)))
            .shown(name, at)
    }

    // One cycle: the FS-Master's SPDU arrives, then the FS-Device's answer.
    fn cycle(self, name: &str, at: u32) -> Ends {
        self.sent(at, false).answered(name, at, false)
    }

    // Two cycles, 10 ms apart.
    fn two_cycles(self, name: &str, at: u32) -> Ends {
        self.cycle(name, at).cycle(name, at.wrapping_add(10))
    }

    fn four_cycles(self, name: &str, at: u32) -> Ends {
        self.two_cycles(name, at)
            .two_cycles(name, at.wrapping_add(20))
    }

    fn damaged_there(self, name: &str, at: u32) -> Ends {
        self.sent(at, true).answered(name, at, false)
    }

    fn damaged_back(self, name: &str, at: u32) -> Ends {
        self.sent(at, false).answered(name, at, true)
    }

    fn clock(self, name: &str, at: u32) -> Ends {
        self.at_device(Happening::Clock(at))
            .at_master(Happening::Clock(at))
            .shown(name, at)
    }

    // The operator's ChFAck_C.
    fn acknowledge(self, at: u32) -> Ends {
        self.at_device(Happening::Operator(at, false, true))
            .at_master(Happening::Operator(at, false, true))
            .shown("ChFAck_C", at)
    }
}

// 11.5.4.1: both with power on. 11.5.4.3: until the FS-Device has read an SPDU, its answer is zeros, and is ignored.
fn start(output: Stdout) -> Ends {
    let on = Ends {
        output,
        master: fs_master::first(0),
        device: fs_device::first(0),
    };
    on.answered("zeros", 5, false)
        .four_cycles("start-up", 10)
        .cycle("regular", 50)
}

// 11.5.4.4: the FS-Device off and on again. The master's watchdog of 100 ms runs from 50 on.
fn power(ends: Ends) {
    let silent = ends.clock("silence", 150).clock("silence", 151);
    let on = Ends {
        device: fs_device::first(152),
        ..silent
    };
    on.four_cycles("on again", 160)
        .acknowledge(195)
        .two_cycles("on again", 200);
}

// 11.5.4.6: the FS-Master detects a CRC error.
fn master_error(ends: Ends) {
    ends.damaged_back("CRC error at the FS-Master", 60)
        .two_cycles("after it", 70)
        .acknowledge(85)
        .two_cycles("after it", 90);
}

// 11.5.4.7: the FS-Device detects a CRC error, and runs through three SDcycles.
fn device_error(ends: Ends) {
    ends.damaged_there("CRC error at the FS-Device", 60)
        .four_cycles("after it", 70)
        .acknowledge(105)
        .two_cycles("after it", 110);
}

pub(crate) fn run(output: Stdout) {
    times(output);
    let ends = start(output);
    power(ends);
    master_error(ends);
    device_error(ends);
}
