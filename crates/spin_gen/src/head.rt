//! What the script says before anything is drawn.

ghost use Rattle.std.specs.Prelude.{◌≡◌};
ghost use Rattle.spin_gen.specs.Inner.Writing.{head_text};

// The declarations, and the installs of the first segment.
const HEAD: &[u8] = b"spin 1
modules 1
event 0 0 w:w fold + a0 a1
event 1 0 w:w fold + a0 a1
event 2 0 w:w fold + a0 a1
event 3 0 w:w fold + a0 a1
event 4 0 w:w fold + a0 a1
event 5 0 w:w fold + a0 a1
event 6 0 w:w fold + a0 a1
event 7 0 w:w fold + a0 a1
event 8 0 b last
event 9 0 bwww last
event 10 0 bwwww last
endpoint 0 out0
handler 1 w:w result + a0 1
handler 2 w:w result + a0 2
handler 3 w:w result + a0 3
handler 4 w:w result + a0 4
handler 5 b layer ipv4 9
handler 6 bwww layer udp 10
handler 7 bwwww send 0 0 0
guard 1 w == & a0 3 0
guard 2 w == & a0 3 1
guard 3 w == & a0 3 2
guard 4 w == & a0 3 3
guard 5 b == f 0 12 2 2048
guard 6 bwww == a1 17
guard 7 bwwww < a2 512
lane 0 install 8 0 5 5 free plain
lane 0 install 9 0 6 6 free plain
lane 0 install 10 0 7 7 free plain
";

// The text of the script up to its first barrier.
pub(crate) fn head() -> &'static [u8]
    ensures { result.now ≡ head_text }
{
    HEAD
}
