// One channel: its state, and the state after one sample.
ghost use Rattle.std.specs.Prelude.{◌≡◌};
ghost use Rattle.channels.specs.Run.{ran_over};
ghost use Rattle.channels.specs.Channel.{over_after, under_after, raw_fault, filter_after, logic_after, pulse_now, left_after, channel_after};
ghost use Rattle.channels.specs.Channel.{logic_fault, fault_by, warning_by, fault_bit, warning_bit};

use crate::{Channel, Filter, Ran, Sample, frame};
use image::{FaultType, Group, Input, Logic, Threshold};

impl Channel {
    // The state after one more sample. All parts advance, whatever the function or the fault type.
    #[tactic(auto, unfolding(crate::specs::Channel::channel_after))]
    fn after(self, group: Group, sample: Sample) -> Channel
        ensures { result ≡ channel_after group sample self }
    {
        let over = over_after(group.over, self.over, sample.value);
        let under = under_after(group.under, self.under, sample.value);
        let raw = raw_fault(group.faults, over, under);
        let logic = logic_after(group.logic, sample.level, self.logic);
        let tick = LogicTick {
            logic: group.logic,
            before: self.logic,
            after: logic,
            left: self.left,
        };
        Channel {
            over,
            under,
            analog: filter_after(group.delay, raw, self.analog),
            logic,
            left: tick.left_after(),
        }
    }

    // Channel k over n frames, with its two bits on the last of them. The number stands beside the frames, and is
    // not counted from their bytes: the promise speaks of any n, and of a frame past the end as one with no byte.
    pub fn run(self, group: Group, frames: &[u8], n: usize, k: usize) -> Ran
        ensures { result ≡ ran_over group frames.now k self n }
    {
        let mut before = self;
        let mut after = self;
        let mut rest = frames;
        for _ in 0..n {
            let (frame, others) = rest.split_at(rest.len().min(11));
            before = after;
            after = before.after(group, frame::sample(group.input, frame, k));
            rest = others;
        }
        Ran {
            channel: after,
            fault: fault_bit(group, before, after),
            warning: warning_bit(group, before, after),
        }
    }
}

#[tactic(auto, unfolding(crate::specs::Channel::over_after, crate::specs::Channel::over_release))]
fn over_after(threshold: Threshold, over: bool, value: u8) -> bool
    ensures { result ≡ over_after threshold over value }
{
    if over {
        return value > threshold.level.saturating_sub(threshold.hysteresis);
    }
    value > threshold.level
}

#[tactic(auto, unfolding(crate::specs::Channel::under_after, crate::specs::Channel::under_release))]
fn under_after(threshold: Threshold, under: bool, value: u8) -> bool
    ensures { result ≡ under_after threshold under value }
{
    if under {
        return value < threshold.level.saturating_add(threshold.hysteresis);
    }
    value < threshold.level
}

fn raw_fault(faults: FaultType, over: bool, under: bool) -> bool
    ensures { result ≡ raw_fault faults over under }
{
    match faults {
        FaultType::Over => over,
        FaultType::UnderOrOver => over || under,
        FaultType::Under => under,
        FaultType::Off => false,
    }
}

#[tactic(auto, unfolding(crate::specs::Channel::filter_after, crate::specs::Channel::ticks))]
fn filter_after(delay: u16, raw: bool, filter: Filter) -> Filter
    ensures { result ≡ filter_after delay raw filter }
{
    if raw == filter.filtered || filter.count >= delay / 5 {
        return Filter {
            filtered: raw,
            count: 0,
        };
    }
    Filter {
        count: filter.count + 1,
        ..filter
    }
}

// "Logic: invert, filter by byte 6."
fn logic_after(logic: Logic, level: bool, filter: Filter) -> Filter
    ensures { result ≡ logic_after logic level filter }
{
    filter_after(logic.delay, level ^ logic.invert, filter)
}

// One tick of a channel's logic part: its filter before and after, and what was left of a pulse.
#[derive(Clone, Copy)]
struct LogicTick {
    logic: Logic,
    before: Filter,
    after: Filter,
    left: u16,
}

impl LogicTick {
    // "A filtered rise sets n to pulse/5, else n is what was left."
    #[tactic(auto, unfolding(crate::specs::Channel::pulse_now, crate::specs::Channel::ticks))]
    fn pulse_now(self) -> u16
        ensures { result ≡ pulse_now self.logic self.before self.after self.left }
    {
        if self.after.filtered && !self.before.filtered {
            return self.logic.pulse / 5;
        }
        self.left
    }

    #[tactic(auto, unfolding(crate::specs::Channel::left_after))]
    fn left_after(self) -> u16
        ensures { result ≡ left_after self.logic self.before self.after self.left }
    {
        if self.logic.edge {
            return self.pulse_now().saturating_sub(1);
        }
        0
    }

    #[tactic(auto, unfolding(crate::specs::Channel::logic_fault))]
    fn fault(self) -> bool
        ensures { result ≡ logic_fault self.logic self.before self.after self.left }
    {
        if self.logic.edge {
            return self.pulse_now() > 0;
        }
        self.after.filtered
    }
}

// The channel's fault on the tick that leads from one state to the next.
#[tactic(auto, unfolding(crate::specs::Channel::fault_bit))]
fn fault_bit(group: Group, before: Channel, after: Channel) -> bool
    ensures { result ≡ fault_bit group before after }
{
    let tick = LogicTick {
        logic: group.logic,
        before: before.logic,
        after: after.logic,
        left: before.left,
    };
    fault_by(group.input, after.analog.filtered, tick.fault())
}

// The channel's warning on the same tick.
#[tactic(auto, unfolding(crate::specs::Channel::warning_bit))]
fn warning_bit(group: Group, before: Channel, after: Channel) -> bool
    ensures { result ≡ warning_bit group before after }
{
    warning_by(group.input, after.analog.filtered)
}

fn fault_by(input: Input, analog: bool, logic: bool) -> bool
    ensures { result ≡ fault_by input analog logic }
{
    match input {
        Input::LogicFault | Input::LogicFaultAnalogWarning => logic,
        Input::NoFunction => false,
        _ => analog,
    }
}

fn warning_by(input: Input, analog: bool) -> bool
    ensures { result ≡ warning_by input analog }
{
    matches!(input, Input::LogicFaultAnalogWarning) && analog
}
