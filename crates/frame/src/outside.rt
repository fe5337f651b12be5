// Frames that come from outside.
ghost use Rattle.std.specs.Prelude.{◌≡◌};
ghost use Rattle.link.specs.Links.{queue_of};
ghost use Rattle.frame.specs.Frames.{read_of};
ghost use Rattle.frame.specs.Outside.{handed_answer, handed};

use crate::message;
use fields::Refusal;
use link::Link;

// Sends the message that the frame holds, on a link of any make.
pub fn send_frame<L: Link>(link: &mut L, frame: [u8; 15]) -> Result<(), Refusal>
    ensures answer { result ≡ handed_answer (queue_of L.Link link.old) (read_of frame) }
    ensures queue { queue_of L.Link link.new ≡ handed (queue_of L.Link link.old) (read_of frame) }
{
    link.send(message(frame)?)
}
