// Bytes in which frames stand one after the other.
ghost use Rattle.std.specs.Prelude.{◌≡◌, ◌+◌, ◌/◌, ◌≤◌, ◌++◌, length, take, drop, vec_len};
ghost use Rattle.std.specs.Result.{result_ok};
ghost use Rattle.frame.specs.Rows.{read_at, Writes};

use crate::{frame, message};
use link::{Message, Places};

// Writes the frame from `at` on. By its place: `as_chunks_mut` says nothing of what the bytes end as.
fn write(bytes: &mut [u8], at: usize, frame: [u8; 15])
    requires { at + 15 ≤ length bytes.old }
    ensures { bytes.new ≡ take at bytes.old ++ (frame ++ drop 15 (drop at bytes.old)) }
{
    bytes[at..at + 15].copy_from_slice(&frame);
}

// As many places as the bytes hold whole frames.
#[derive(Debug, PartialEq, Eq, Drop)]
pub struct Frames(pub Vec<u8>);

impl Places for Frames {
    ghost size = { λ f. vec_len f.0 / 15 };

    ghost held = { λ f k. result_ok (read_at f.0.items k) };

    ghost put_gives = { λ old place message new. Writes old.0.items place message new.0.items };

    fn size(&self) -> usize {
        self.0.len() / 15
    }

    fn get(&self, place: usize) -> Message {
        let (frames, _) = self.0.as_chunks::<15>();
        message(frames[place]).unwrap()
    }

    fn put(&mut self, place: usize, message: Message) {
        write(&mut self.0, 15 * place, frame(message));
    }
}
