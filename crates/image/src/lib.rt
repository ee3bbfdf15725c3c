// The configuration image: its settings, and, in specs/, the tables of its codes and what eighty bytes mean.
// `reading` has the reader, and `writing` the way back.
#![tactic(auto)]

ghost use Rattle.std.specs.Prelude.{◌≡◌};
ghost use Rattle.image.specs.Reading.{zero_group_of, zero_settings};

// The settings that an image means. One struct serves all ten groups, so that a setting that no
// byte of its group can mean exists, and is refused. Delays and pulses are in µs. A variant's number is
// its lowest code, but for `Input`, where the table of each kind of pin begins anew. Groups go by number, in the paper's order
// VP1 to VP4, VH, VX1 to VX5: an enum of the three kinds would be made of the same ranges, and be taken apart at once.
#[derive(Clone, Copy)]
pub struct Settings {
    pub groups: [Group; 10],
}

#[derive(Clone, Copy)]
pub struct Group {
    pub over: Threshold,
    pub under: Threshold,
    pub delay: u16,
    pub faults: FaultType,
    pub input: Input,
    pub logic: Logic,
    pub output: Output,
}

#[derive(Clone, Copy, PartialEq, Eq, Default)]
pub struct Threshold {
    pub level: u8,
    pub hysteresis: u8,
}

#[derive(Clone, Copy, Default)]
pub enum FaultType {
    #[default]
    Over,
    UnderOrOver,
    Under,
    Off,
}

// What byte 5 means: a range of VP or of VH, or a function of VX.
#[derive(Clone, Copy)]
pub enum Input {
    VpMid,
    VpLow,
    VpUltralow,
    VhLow,
    VhHigh,
    AnalogFault,
    LogicFault,
    LogicFaultAnalogWarning,
    NoFunction,
}

#[derive(Clone, Copy, PartialEq, Eq, Default)]
pub struct Logic {
    pub invert: bool,
    pub edge: bool,
    pub pulse: u16,
    pub delay: u16,
}

#[derive(Clone, Copy, Default)]
pub struct Output {
    pub source: Source,
    pub pull: Pull,
}

#[derive(Clone, Copy, Default)]
pub enum Source {
    #[default]
    Disabled,
    Engine,
    DrivenLow,
    DrivenHigh,
}

#[derive(Clone, Copy, PartialEq, Eq, Default)]
pub enum Pull {
    #[default]
    Unpulled = 0,
    Vddcap300k = 2,
    WeakVp1 = 4,
    PushPullVp1 = 5,
    WeakVp2 = 6,
    PushPullVp2 = 7,
    WeakVp3 = 8,
    PushPullVp3 = 9,
    WeakVp4 = 10,
    PushPullVp4 = 11,
    WeakVddcap = 14,
    PushPullVddcap = 15,
}

pub const TIMES: [u16; 8] = [0, 5, 10, 20, 30, 50, 75, 100];

pub const PULSES: [u16; 4] = [10, 100, 1000, 10000];

pub const FAULT_TYPES: [FaultType; 4] = [
    FaultType::Over,
    FaultType::UnderOrOver,
    FaultType::Under,
    FaultType::Off,
];

// The settings of a refusal: zero in every field, code 0 of its group for a named kind.
impl Default for Settings {
    ghost is_default = { λ settings. settings ≡ zero_settings };

    #[tactic(auto, unfolding(crate::specs::Reading::zero_settings, crate::specs::Reading::zero_group, crate::specs::Reading::input_of, records::specs::Lists::each, records::specs::Bits::bits))]
    fn default() -> Settings {
        let vp = zero_group(Input::VpMid);
        let vh = zero_group(Input::VhLow);
        let vx = zero_group(Input::AnalogFault);
        Settings {
            groups: [vp, vp, vp, vp, vh, vx, vx, vx, vx, vx],
        }
    }
}

#[tactic(auto, unfolding(crate::specs::Reading::zero_group_of))]
fn zero_group(input: Input) -> Group
    ensures { result ≡ zero_group_of input }
{
    Group {
        over: Threshold::default(),
        under: Threshold::default(),
        delay: 0,
        faults: FaultType::default(),
        input,
        logic: Logic::default(),
        output: Output::default(),
    }
}
