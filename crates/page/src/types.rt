//! The refusals of a page that is made from a wall file.
ghost use Rattle.std.specs.Prelude.{◌≡◌};
ghost use Rattle.page.specs.declared.types.PageFault.TheVariants.{File, Call};

use fault::WallFault;
use rules::Refusal;

/// Why there is no page: the wall file is refused, or the call is.
#[derive(Clone, Copy, PartialEq, Eq, Debug)]
pub enum PageFault {
    /// The file spells no wiring.
    File(WallFault),
    /// There is no such node, or no room for its page.
    Call(Refusal),
}

impl From<WallFault> for PageFault {
    ghost from_gives = { λ fault refusal. refusal ≡ File fault };

    fn from(fault: WallFault) -> PageFault {
        PageFault::File(fault)
    }
}

impl From<Refusal> for PageFault {
    ghost from_gives = { λ reason refusal. refusal ≡ Call reason };

    fn from(reason: Refusal) -> PageFault {
        PageFault::Call(reason)
    }
}
