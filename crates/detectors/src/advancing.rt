// The bank's start, its ranges, and its ten channels over a run of frames.
ghost use Rattle.std.specs.Prelude.{◌≤◌, ◌≡◌};
ghost use Rattle.records.specs.Answers.{verdict_of};
ghost use Rattle.detectors.specs.Bank.{start_bank, bank_verdict, left_in_range, quiet, in_range};
ghost use Rattle.detectors.specs.Tick.{bank_at, trace, words_over};

use crate::{Bank, Words};
use channels::Channel;
use image::{Group, Logic, Settings};
use records::{Number, Refusal, ensure};
use words::bit;

// The bank that every run starts from: all state false and zero.
#[tactic(auto, unfolding(crate::specs::Bank::start_bank, records::specs::Lists::each))]
pub fn start() -> Bank
    ensures { result ≡ start_bank }
{
    Bank {
        channels: [Channel::default(); 10],
    }
}

// Each channel over N frames by itself: no channel reads another's state. The words are those of the last frame.
pub(crate) fn advance<const N: usize>(
    settings: Settings,
    bank: Bank,
    frames: &[u8],
) -> (Bank, Words)
    requires { 1 ≤ N }
    ensures bank { result.0 ≡ bank_at settings frames.now bank N }
    ensures words { result.1 ≡ words_over (trace settings frames.now bank N) }
{
    let mut after = bank;
    let mut words = Words::default();
    for (k, (group, channel)) in settings.groups.iter().zip(&bank.channels).enumerate() {
        let ran = channel.run(*group, frames, N, k);
        after.channels[k] = ran.channel;
        words.faults += bit(ran.fault, k);
        words.warnings += bit(ran.warning, k);
    }
    (after, words)
}

// Number 8 at the lowest channel whose state the rules cannot reach by range.
#[tactic(auto, using(records::proofs::ReturnLaws::loops), unfolding(crate::specs::Bank::bank_verdict))]
pub(crate) fn bank_verdict(settings: Settings, bank: Bank) -> Result<(), Refusal>
    ensures { verdict_of result ≡ bank_verdict settings bank }
{
    for (k, (group, channel)) in settings.groups.iter().zip(&bank.channels).enumerate() {
        ensure(in_range(k, *group, *channel), Number::Unreachable, k)?;
    }
    Ok(())
}

#[tactic(auto, unfolding(crate::specs::Bank::in_range, channels::specs::Channel::ticks))]
fn in_range(k: usize, group: Group, channel: Channel) -> bool
    ensures { result ≡ in_range k group channel }
{
    channel.analog.count <= group.delay / 5
        && channel.logic.count <= group.logic.delay / 5
        && left_in_range(group.logic, channel.left)
        && (k >= 5 || quiet(channel))
}

#[tactic(auto, unfolding(crate::specs::Bank::left_in_range, channels::specs::Channel::ticks))]
fn left_in_range(logic: Logic, left: u16) -> bool
    ensures { result ≡ left_in_range logic left }
{
    if logic.edge {
        return left < logic.pulse / 5;
    }
    left == 0
}

// Nothing of the logic part has moved.
#[tactic(auto, unfolding(crate::specs::Bank::quiet))]
fn quiet(channel: Channel) -> bool
    ensures { result ≡ quiet channel }
{
    !channel.logic.filtered && channel.logic.count == 0 && channel.left == 0
}
