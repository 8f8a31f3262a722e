// What the report is made of: the four components, as they are lent, with their number of points and of orbitals.
#[derive(Clone, Copy)]
pub(crate) struct Components<'a> {
    pub(crate) retarded: &'a [f64],
    pub(crate) advanced: &'a [f64],
    pub(crate) lesser: &'a [f64],
    pub(crate) greater: &'a [f64],
    pub(crate) points: usize,
    pub(crate) orbitals: usize,
}
