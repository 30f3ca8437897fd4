ghost use Rattle.std.specs.Prelude.{◌≡◌, ◌++◌};
ghost use Rattle.lif_model.specs.Made.{in_four, geometry};

/// How many records a disc of the HP 9114 has.
const DISC_RECORDS: u16 = 2464;

/// The form of a medium, as bytes 24 to 35 of a LIF volume header tell it.
#[derive(Drop)]
pub struct Geometry {
    /// Tracks per surface.
    pub tracks: u32,
    /// Surfaces.
    pub surfaces: u32,
    /// Records per track.
    pub records: u32,
}

impl Geometry {
    /// That of a medium of `size` records: an HP 9114 disc where they are 2,464, else an HP 82161A
    /// cassette.
    pub fn of(size: u16) -> Geometry
        ensures { in_four result.tracks ++ (in_four result.surfaces ++ in_four result.records)
            ≡ geometry size }
    {
        match size {
            DISC_RECORDS => Geometry {
                tracks: 77,
                surfaces: 2,
                records: 16,
            },
            _ => Geometry {
                tracks: 2,
                surfaces: 1,
                records: 256,
            },
        }
    }
}
