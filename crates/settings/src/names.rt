// Lists, each of its own length: what a line calls a channel, and each named kind by its number. The codes 12 and 13 of a pull-up have no name.
pub(crate) const CHANNELS: [&[u8]; 10] = [
    b"VP1", b"VP2", b"VP3", b"VP4", b"VH", b"VX1", b"VX2", b"VX3", b"VX4", b"VX5",
];

pub(crate) const FAULT_TYPES: [&[u8]; 4] = [b"over", b"both", b"under", b"off"];

pub(crate) const INPUTS: [&[u8]; 9] = [
    b"mid",
    b"low",
    b"ultralow",
    b"vh-low",
    b"vh-high",
    b"analog",
    b"logic",
    b"logic-warn",
    b"none",
];

pub(crate) const SOURCES: [&[u8]; 4] = [b"disabled", b"engine", b"low", b"high"];

pub(crate) const PULLS: [&[u8]; 16] = [
    b"none",
    b"none",
    b"300k",
    b"300k",
    b"weak-vp1",
    b"push-vp1",
    b"weak-vp2",
    b"push-vp2",
    b"weak-vp3",
    b"push-vp3",
    b"weak-vp4",
    b"push-vp4",
    b"",
    b"",
    b"weak-vddcap",
    b"push-vddcap",
];
