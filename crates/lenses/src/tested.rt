// A run area that has been tested, lent for reading, with its sizes.
ghost use Rattle.lenses.specs.Ready.{Ready};

use tables::Sizes;

// The words of a well-formed area, with its N and M.
#[derive(Clone, Copy)]
pub struct Tested<'a> {
    pub words: &'a [i32],
    pub sizes: Sizes,
    pub ghost ready: { Ready words.now sizes },
}
