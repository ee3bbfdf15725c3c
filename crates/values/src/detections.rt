// The reader, the writer, the detectors and the pins: their refusals in their order.
use crate::answers::{first, print_answer};
use detectors::{Bank, Detected};
use image::Settings;
use records::Verdict;
use std::io;
use std::io::Write;

// The blank image with two bytes of its first group, cut to a length.
struct Read {
    name: &'static str,
    one: u8,
    seven: u8,
    length: usize,
}

const READS: [Read; 5] = [
    Read {
        name: "read, 79 bytes:",
        one: 0x20,
        seven: 0xC0,
        length: 79,
    },
    Read {
        name: "read, then 80:",
        one: 0x20,
        seven: 0xC0,
        length: 80,
    },
    Read {
        name: "read, then byte 1 mended:",
        one: 0,
        seven: 0xC0,
        length: 80,
    },
    Read {
        name: "read, then bit 7 mended:",
        one: 0,
        seven: 0x40,
        length: 80,
    },
    Read {
        name: "read, then byte 7 mended:",
        one: 0,
        seven: 0x10,
        length: 80,
    },
];

// Length, then the lowest address, and there 2 before 3.
pub(crate) fn try_read_order(output: &mut impl Write) -> io::Result<()> {
    for tried in &READS {
        let mut image = blank_image::blank();
        image[1] = tried.one;
        image[7] = tried.seven;
        let answer = reading::read(first(&image, tried.length));
        print_answer(output, tried.name, Verdict::of(answer), &[])?;
    }
    Ok(())
}

// Length before settings.
pub(crate) fn try_write_order(output: &mut impl Write) -> io::Result<()> {
    let mut buffer = [0u8; 80];
    try_write(output, "write, 79 bytes:", 32, &mut buffer[..79])?;
    try_write(output, "write, then 80:", 32, &mut buffer)?;
    try_write(output, "write, then hysteresis mended:", 31, &mut buffer)
}

fn try_write(
    output: &mut impl Write,
    name: &str,
    hysteresis: u8,
    buffer: &mut [u8],
) -> io::Result<()> {
    let answer = writing::write(driving(hysteresis), buffer);
    print_answer(output, name, Verdict::of(answer), &[])
}

// The settings of the blank image, but that the engine drives PDO1, and a hysteresis on VP1.
fn driving(hysteresis: u8) -> Settings {
    let mut image = blank_image::blank();
    image[7] = 0x10;
    let mut settings = reading::read(&image).unwrap_or_default();
    settings.groups[0].over.hysteresis = hysteresis;
    settings
}

// Channel 3 has counted, though its filter is 0.
fn counted(count: u16) -> Bank {
    let mut bank = detectors::start();
    bank.channels[3].analog.count = count;
    bank
}

// A frame in which VP1 has sample 1 over threshold 0.
struct Frame {
    name: &'static str,
    hysteresis: u8,
    count: u16,
    levels: u8,
    length: usize,
}

const FRAMES: [Frame; 5] = [
    Frame {
        name: "detector tick, 10 bytes:",
        hysteresis: 32,
        count: 1,
        levels: 32,
        length: 10,
    },
    Frame {
        name: "detector tick, then 11:",
        hysteresis: 32,
        count: 1,
        levels: 32,
        length: 11,
    },
    Frame {
        name: "detector tick, then settings mended:",
        hysteresis: 31,
        count: 1,
        levels: 32,
        length: 11,
    },
    Frame {
        name: "detector tick, then state mended:",
        hysteresis: 31,
        count: 0,
        levels: 32,
        length: 11,
    },
    Frame {
        name: "detector tick, then level byte 31:",
        hysteresis: 31,
        count: 0,
        levels: 31,
        length: 11,
    },
];

// Length, settings, state, level byte.
pub(crate) fn try_tick_order(output: &mut impl Write) -> io::Result<()> {
    for tried in &FRAMES {
        let frame = [1, 0, 0, 0, 0, 0, 0, 0, 0, 0, tried.levels];
        let (settings, bank) = (driving(tried.hysteresis), counted(tried.count));
        let detection = detectors::tick(settings, bank, first(&frame, tried.length));
        let detected = Detected::from(detection);
        let items = [detected.faults, detected.warnings];
        print_answer(output, tried.name, detected.verdict, &items)?;
    }
    Ok(())
}

// Settings, then the word.
pub(crate) fn try_pin_order(output: &mut impl Write) -> io::Result<()> {
    try_pins(output, "pins, outputs 1024:", 32, 1024)?;
    try_pins(output, "pins, then settings mended:", 31, 1024)?;
    try_pins(output, "pins, then outputs 1023:", 31, 1023)
}

fn try_pins(output: &mut impl Write, name: &str, hysteresis: u8, outputs: u16) -> io::Result<()> {
    let answer = pins::pins(driving(hysteresis), outputs);
    print_answer(output, name, Verdict::of(answer), &[answer.unwrap_or(0)])
}
