// Bytes as numbers from 0 to 1.
ghost use Rattle.std.specs.Prelude.{◌≡◌, map, ◌≤◌, length};
ghost use Rattle.probing.specs.Probe.{code_of};

// Each byte as a unit, at the start of `room`.
pub(crate) fn units<'a>(bytes: &[u8], room: &'a mut [f32]) -> &'a [f32]
    requires { length bytes.now ≤ length room.old }
    ensures { result.now ≡ map code_of bytes.now }
{
    for (i, byte) in bytes.iter().enumerate() {
        room[i] = binary32::unit(*byte as u16, 255);
    }
    &room[..bytes.len()]
}
