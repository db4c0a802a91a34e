// Where the walk along the marks of a group is.
use crate::extents::Extents;

// How far it may have gone (`Near`) grows with each mark, and where it may be (`Known`) goes by the base that it is under:
// contracts say both, since no field does.
#[derive(Clone, Copy)]
pub struct Walk {
    // What the next mark's offsets are corrected by.
    pub x: i32,
    pub y: i32,
    // The component of the last mark, counted from 1, and the class of its run; 0 at first.
    // Neither is an `Option`: a mark can come back to component 0, which has a share too; and 0 is the class of marks that are
    // in no run, in the data and in the definitions, so an `Option` would be taken apart again at each comparison.
    pub component: u8,
    pub class: u8,
    // The box of the component, and that of the run.
    pub around: Extents,
    pub run: Extents,
}
