//! The whole program over bytes.
ghost use Rattle.std.specs.Prelude.{◌≡◌, []};
ghost use Rattle.pmem_c.specs.Answered.{IsAnswer, IsCopied};

use crate::ends::{HeapSink, SliceSource};
use crate::words::{Unread, read_words};
use pmem_cli::{run, told_is_left};
use std::alloc::Global;

/// Copies as many bytes as there is room for.
pub(crate) fn copy_out(from: &[u8], to: &mut [u8])
    ensures { IsCopied from.now to.old to.new }
{
    let count = from.len().min(to.len());
    let (front, _) = to.split_at_mut(count);
    front.copy_from_slice(from.split_at(count).0);
}

/// Runs the program over these bytes, and gives the status.
pub(crate) fn answer(alloc: Global, words: &[u8], trace: &[u8], out: &mut HeapSink) -> u8
    requires empty { out.old.bytes.items ≡ [] }
    requires sound { out.old.faults ≡ 0 }
    ensures { IsAnswer words.now trace.now result out.new.bytes.items }
{
    match read_words(alloc, words) {
        Ok(words) => {
            told_is_left();
            let mut source = SliceSource::new(trace);
            run(alloc, words.as_slice(), &mut source, out)
        }
        Err(Unread::NoText) => 2,
        Err(Unread::NoMemory) => 1,
    }
}
