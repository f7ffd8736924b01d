// Moves of whole pictures: w wide and h tall, filled from as many pixels, whose lines are the picture's rows or its columns,
// with each side mirrored or not.
//
// A move without room in both buffers changes nothing. What lies past the picture is left as it was.
#![tactic(auto)]

ghost use Rattle.std.specs.Prelude.{◌≡◌, ◌+◌, ◌*◌, ◌≤◌, ◌<◌, ◌++◌, length, get_or, drop};
ghost use Rattle.moves.specs.Tabulate.{tabulate};
ghost use Rattle.moves.specs.Moves.{mirror, moved_after};
ghost use Rattle.moves.specs.Laws.Picture.{row_pixel, column_pixel, picture, line_moved};
ghost use Rattle.moves.specs.Laws.Filling.{BandFilled};

// Columns of a band: 128 lines of input take 8 kilobytes of the nearest cache, 64 bytes each.
const BAND: usize = 128;

// What a picture w wide and h tall is filled from, and which of its sides are mirrored.
#[derive(Clone, Copy)]
struct Source<'a> {
    leftward: bool,
    upward: bool,
    w: usize,
    h: usize,
    pixels: &'a [u16],
    ghost has_all: { h * w ≤ length pixels.now },
}

// Moves a picture; crossed, its lines are columns.
#[tactic(auto, unfolding(crate::specs::Moves::moved_after, crate::specs::Moves::moved, crate::specs::Laws::Picture::picture))]
pub fn move_pixels(
    crossed: bool,
    leftward: bool,
    upward: bool,
    w: u32,
    h: u32,
    input: &[u16],
    output: &mut [u16],
)
    ensures { output.new ≡ moved_after crossed leftward upward w h input.now output.old }
{
    let size = (h as usize) * (w as usize);
    if input.len() < size {
        return;
    }
    if output.len() < size {
        return;
    }
    let source = Source {
        leftward,
        upward,
        w: w as usize,
        h: h as usize,
        pixels: input,
    };
    if crossed {
        source.fill_columns(output);
        return;
    }
    source.fill_rows(output);
}

impl Source<'_> {
    // Lines as rows.
    #[tactic(auto, using(crate::proofs::Laws::Grid::rows_apart))]
    fn fill_rows(&self, output: &mut [u16])
        requires { self.now.h * self.now.w ≤ length output.old }
        ensures { output.new ≡ picture self.now.w self.now.h (row_pixel self.now.leftward self.now.upward self.now.w self.now.h self.now.pixels.now) ++ drop (self.now.h * self.now.w) output.old }
    {
        let (w, h) = (self.w, self.h);
        for y in 0..h {
            let from = mirror_row(self.upward, h, y) * w;
            let at = y * w;
            fill_row(
                self.leftward,
                &self.pixels[from..from + w],
                &mut output[at..at + w],
            );
        }
    }

    // Lines as columns, by bands of columns: the lines that are read side by side stay in the nearest cache, and what is stored
    // lies together.
    fn fill_columns(&self, output: &mut [u16])
        requires { self.now.h * self.now.w ≤ length output.old }
        ensures { output.new ≡ picture self.now.w self.now.h (column_pixel self.now.leftward self.now.upward self.now.w self.now.h self.now.pixels.now) ++ drop (self.now.h * self.now.w) output.old }
    {
        // a `while`: the last band is narrower, and by `step_by` its end would be worked out as well
        let mut x = 0;
        while x < self.w {
            let e = band_end(x, self.w);
            self.fill_band(x, e, output);
            x = e;
        }
    }

    // Fills the columns from x on, below e, of every row.
    fn fill_band(&self, x: usize, e: usize, output: &mut [u16])
        requires output_room { self.now.h * self.now.w ≤ length output.old }
        requires x_le_e { (x ≤ e) × (e ≤ self.now.w) }
        ensures output_len_unchanged { length output.new ≡ length output.old }
        ensures band_filled { BandFilled self.now.w self.now.h (column_pixel self.now.leftward self.now.upward self.now.w self.now.h self.now.pixels.now) x e output.old output.new }
    {
        for y in 0..self.h {
            let at = y * self.w;
            self.fill_run(
                mirror(self.upward, self.h, y),
                x,
                &mut output[at + x..at + e],
            );
        }
    }

    // Fills a run of a row from column x on, with pixel i of the lines.
    #[tactic(auto, using(crate::proofs::Laws::Grid::cell_below))]
    fn fill_run(&self, i: usize, x: usize, run: &mut [u16])
        requires i_lt_h { i < self.now.h }
        requires run_bound { x + length run.old ≤ self.now.w }
        ensures { run.new ≡ tabulate (length run.old) (λ j. get_or self.now.pixels.now (mirror self.now.leftward self.now.w (x + j) * self.now.h + i) 0) }
    {
        let (leftward, w, h, pixels) = (self.leftward, self.w, self.h, self.pixels);
        for (j, pixel) in run.iter_mut().enumerate() {
            *pixel = pixels[mirror(leftward, w, x + j) * h + i];
        }
    }
}

// One line into its row.
#[tactic(auto, using(crate::proofs::Laws::Filling::stored_all), unfolding(crate::specs::Laws::Picture::line_moved))]
fn fill_row(leftward: bool, line: &[u16], row: &mut [u16])
    requires { length line.now ≡ length row.old }
    ensures { row.new ≡ line_moved leftward (length row.old) line.now }
{
    let n = row.len();
    for (x, pixel) in row.iter_mut().enumerate() {
        *pixel = line[mirror(leftward, n, x)];
    }
}

// Where the band from column x on ends.
fn band_end(x: usize, w: usize) -> usize
    requires { x < w }
    ensures { (x < result) × (result ≤ w) }
{
    x + BAND.min(w - x)
}

#[tactic(auto, unfolding(crate::specs::Moves::mirror))]
fn mirror(far: bool, n: usize, i: usize) -> usize
    requires { i < n }
    ensures value { result ≡ mirror far n i }
    ensures within { result < n }
{
    if far { n - 1 - i } else { i }
}

// The same, as the distance from the end that is counted from. A test of `far` would split the loop over rows in two, one
// of which is not vectorised.
#[tactic(auto, unfolding(crate::specs::Moves::mirror))]
fn mirror_row(far: bool, n: usize, i: usize) -> usize
    requires { i < n }
    ensures value { result ≡ mirror far n i }
    ensures within { result < n }
{
    i.abs_diff(mirror(far, n, 0))
}
