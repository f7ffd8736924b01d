// Damage inside the bodies of scanlines stays there: the law about two readings of a raster with scanline headers.
#![tactic(auto)]
