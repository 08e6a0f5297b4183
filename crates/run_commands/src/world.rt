//! A program in the closed world that answers its calls.
ghost use Rattle.std.specs.Prelude.{◌≡◌, ◌+◌, ◌≤◌};
ghost use Rattle.std.specs.List.{AllByRecursion};
ghost use Rattle.ecoff_load.specs.Object.{IsImage};
ghost use Rattle.event_trace.specs.World.{files_of};
ghost use Rattle.run_commands.specs.Outcome.{greatest_end, start_break};
ghost use Rattle.run_commands.specs.Parts.{enclosed};

use ecoff_load::{Image, Part};
use event_trace::World;
use std::alloc::Global;

/// The break of a program that has no parts.
const NO_PARTS: u32 = 0x1000_0000;

/// A program with the world that answers its calls.
#[derive(Drop)]
pub struct Enclosed {
    /// The program.
    pub image: Image,
    /// Its world.
    pub world: World,
}

/// The greatest end of parts.
fn greatest_end(parts: &[Part]) -> u32
    requires { AllByRecursion (λ p. p.addr + p.size ≤ 0x7ff00000) parts.now }
    ensures end { result ≡ greatest_end parts.now }
    ensures bound { result ≤ 0x7ff00000 }
{
    let mut end: u32 = 0;
    for part in parts {
        end = end.max(part.addr + part.size);
    }
    end
}

/// Where the break of a program stands at its start.
fn start_break(image: &Image) -> u32
    requires { IsImage image.now }
    ensures { result ≡ start_break image.now.parts }
{
    let parts = image.parts.as_slice();
    if parts.is_empty() {
        return NO_PARTS;
    }
    (greatest_end(parts) + 7) / 8 * 8
}

/// Puts a program into the world of its files.
pub fn enclose(
    alloc: Global,
    image: Image,
    input: Vec<u8>,
    files: Vec<(String, Vec<u8>)>,
) -> Enclosed
    requires { IsImage image }
    ensures { result ≡ enclosed input.items (files_of files.items) image }
{
    let least = start_break(&image);
    Enclosed {
        image,
        world: World::new(alloc, input, files, least),
    }
}
