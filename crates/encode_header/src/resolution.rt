// A resolution as it is stored.
ghost use Rattle.std.specs.Prelude.{◌≡◌};
ghost use Rattle.encode_header.specs.Resolution.{drs_bits};

// The 16 bits in which a signed DRS is stored: microns above zero, dots per inch below.
pub fn drs_bits(drs: i16) -> u16
    ensures { result ≡ drs_bits drs }
{
    drs.cast_unsigned()
}
