// Prints the settings that one configuration image on standard input means, a line for each group.
//
//   NAME over T H under T H delay D faults TYPE input KIND logic INVERT EDGE PULSE DELAY
//     output SOURCE PULL normal BYTES
//
// all in one line, with times in µs and the group's normal bytes in hexadecimal. What the library
// refuses prints `refused NUMBER PLACE`.
#![tactic(auto)]

mod names;

use console::print;
use image::{Group, Logic, Output, Settings, Threshold};
use names::{CHANNELS, FAULT_TYPES, INPUTS, PULLS, SOURCES};
use std::io;
use std::io::Write;
use text::Line;

fn main(rt: HostRuntime) -> io::Result<()> {
    // One byte more than an image, so that a longer input is refused and not cut. Of a read that fails no byte counts.
    // Buffers of a fixed size: no program here takes memory from a heap.
    let mut buffer = [0u8; 81];
    let count = console::receive(&mut rt.stdin(), &mut buffer).unwrap_or(0);
    let output = &mut rt.stdout();
    match reading::read(&buffer[..count]) {
        Ok(settings) => print_groups(output, &settings),
        Err(refusal) => console::print_refusal(output, b"", refusal),
    }
}

fn print_groups(output: &mut impl Write, settings: &Settings) -> io::Result<()> {
    // Settings that were read are never refused by the writer.
    let mut normal = [0u8; 80];
    let _ = writing::write(*settings, &mut normal);
    let groups = settings.groups.iter().zip(normal.chunks_exact(8));
    for (name, (group, bytes)) in CHANNELS.iter().zip(groups) {
        print(output, group_line(name, group, bytes))?;
    }
    Ok(())
}

fn group_line(name: &[u8], group: &Group, normal: &[u8]) -> Line {
    let line = threshold_items(text::empty().word(name), b" over", group.over);
    let line = threshold_items(line, b" under", group.under);
    let line = logic_items(fault_items(line, group), group.logic);
    let line = output_names(line, group.output).word(b" normal ");
    normal_bytes(line, normal).word(b"\n")
}

fn threshold_items(line: Line, name: &[u8], threshold: Threshold) -> Line {
    line.word(name)
        .item(threshold.level as u64)
        .item(threshold.hysteresis as u64)
}

fn fault_items(line: Line, group: &Group) -> Line {
    line.word(b" delay")
        .item(group.delay as u64)
        .word(b" faults ")
        .word(FAULT_TYPES[group.faults as usize])
        .word(b" input ")
        .word(INPUTS[group.input as usize])
}

fn logic_items(line: Line, logic: Logic) -> Line {
    line.word(b" logic")
        .item(logic.invert as u64)
        .item(logic.edge as u64)
        .item(logic.pulse as u64)
        .item(logic.delay as u64)
}

fn output_names(line: Line, output: Output) -> Line {
    line.word(b" output ")
        .word(SOURCES[output.source as usize])
        .word(b" ")
        .word(PULLS[output.pull as usize])
}

fn normal_bytes(line: Line, normal: &[u8]) -> Line {
    let mut all = line;
    for byte in normal {
        all = all.hex(*byte as u64, 2);
    }
    all
}
