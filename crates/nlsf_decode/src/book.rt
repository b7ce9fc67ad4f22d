// Decoding under a book: its rows for one vector, then the places, then the stabiliser.
ghost use Rattle.std.specs.Prelude.{◌≡◌};
ghost use Rattle.nlsf_decode.specs.Inner.{Indexed, spectrum_of};

use nlsf_places::places_run;
use nlsf_stabilize::stabilise_run;
use nlsf_stabilize_stays::stays_run;
use tables::books::Book;

// The spectrum of vector v and the indices of its places, stabilised, with the number of moves. Either book is a function of its
// own, so that its order is known to the compiler.
pub fn spectrum_run<
    const N: usize,
    const H: usize,
    const P: usize,
    const G: usize,
    B: Book<N, H, P, G>,
>(vector: &mut [i16], v: usize, xs: &[i8]) -> u32
    requires { Indexed N vector.old v xs.now }
    ensures { record { vector = vector.exit.now; moves = result } ≡ spectrum_of B.lists v xs.now }
{
    let value = B::vector_run(v);
    let selector = B::selectors_run(v);
    let lists = B::predictors();
    places_run(vector, xs, B::STEP, &selector, &lists, &value);
    let gaps = B::gaps();
    if stays_run(vector, &gaps) {
        0
    } else {
        stabilise_run(vector, &gaps, B::GAP_SUM)
    }
}
