//! The numbers of a stream.
ghost use Rattle.std.specs.Prelude.{◌≡◌};
ghost use Rattle.request_drill.specs.Generated as spec;

/// The number behind another: a linear congruential generator, whose two constants are Knuth's for 64 bits.
pub(crate) fn next_number(number: u64) -> u64
    ensures { result ≡ spec.next_number number }
{
    number
        .wrapping_mul(6_364_136_223_846_793_005)
        .wrapping_add(1_442_695_040_888_963_407)
}
