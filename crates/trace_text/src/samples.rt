//! The commands of sample traces.
ghost use Rattle.std.specs.Prelude.{◌≡◌, ◌+◌, ◌%◌, ◌^◌};
ghost use Rattle.pmem_base.specs.Ranges.{IsCommand};
ghost use Rattle.trace_text.specs.Commands.{IsWritable};
ghost use Rattle.trace_text.specs.Samples.{sample_port, sample_place, sample_byte, sample_post, common_command, sample_command, state_of_seed, word_at, state_after_word};

use crate::reading::is_in_range;
use pmem_base::{Command, Line};
use rand_xoshiro::SplitMix64;
use rand_xoshiro::rand_core::SeedableRng;
use rand_xoshiro::rand_core::utils::NextWord;
use std::marker::Model;

/// The port of a word.
fn port_of(word: u64) -> u8
    ensures { result ≡ sample_port word }
{
    ((word >> 4) % 8) as u8
}

/// The data line of a word.
fn place_of(word: u64) -> u64
    ensures { result ≡ sample_place word }
{
    if (word >> 40) % 2 == 1 {
        (word >> 8) % 4
    } else {
        (word >> 8) % 1024
    }
}

/// A line of equal bytes is posted.
fn post_of(port: u8, word: u64) -> Command
    ensures { result ≡ sample_post port word }
{
    let byte = ((word >> 48) % 256) as u8;
    Command::Post {
        port,
        at: place_of(word),
        line: Line([byte; 64]),
    }
}

/// A command that its word tells.
#[tactic(auto, unfolding(crate::specs::Samples::common_command))]
fn common_of(word: u64) -> Command
    ensures command { result ≡ common_command word }
    ensures writable { IsWritable result }
{
    let port = port_of(word);
    match word % 16 {
        0..=6 => post_of(port, word),
        7..=11 => Command::Drain { port },
        12 | 13 => Command::Read {
            port,
            at: place_of(word),
        },
        14 => Command::Turn,
        _ => Command::Flush,
    }
}

/// Command number `number` by its word.
#[tactic(auto, unfolding(crate::specs::Samples::sample_command))]
fn command_of(number: u64, word: u64) -> Command
    ensures command { result ≡ sample_command number word }
    ensures writable { IsWritable result }
{
    match number % 512 {
        508 => Command::Cut { n: (word >> 8) % 4 },
        509 => post_of(0, word),
        510 => Command::Fence { port: 0 },
        511 => Command::Off,
        0 => Command::On,
        _ => common_of(word),
    }
}

/// A maker of a sample trace's commands, which are decided by a seed. Contracts see the generator's
/// state and the number of the next command.
#[derive(Drop)]
pub struct Maker {
    words: SplitMix64,
    number: u64,
}

impl Model for Maker {
    ghost use Rattle.trace_text.specs.Samples.{Making};

    ghost Value = { Making };

    ghost view = { λ maker. record { state = maker.words; number = maker.number } };
}

impl Maker {
    /// A maker at its first command.
    pub fn new(seed: u64) -> Maker
        ensures { result ≡ record { state = state_of_seed seed; number = 1 } }
    {
        Maker {
            words: SplitMix64::from_seed(seed.to_le_bytes()),
            number: 1,
        }
    }

    /// The next command. Each takes one word.
    #[tactic(auto, unfolding(crate::specs::Samples::word_at, crate::specs::Samples::state_after_word))]
    pub fn next(&mut self) -> Command
        ensures command { result ≡ sample_command self.old.number (word_at self.old.state) }
        ensures state { self.new.state ≡ state_after_word self.old.state }
        ensures number { self.new.number ≡ (self.old.number + 1) % 2 ^ 64 }
        ensures writable { IsWritable result }
        ensures range { IsCommand result }
    {
        let word = self.words.next_word();
        let command = command_of(self.number, word);
        is_in_range(command);
        self.number = self.number.wrapping_add(1);
        command
    }
}
