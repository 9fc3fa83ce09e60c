// What a draft is made of besides the pixels.
use heads::head::Head;
use plans::view::View;

// The head of a draft, and the view that shows its picture.
// The grid is passed beside it: where it is lent in a field, each method has to say that grid, head and view stay the same.
#[derive(Clone, Copy)]
pub struct Canvas {
    pub head: Head,
    pub view: View,
}
