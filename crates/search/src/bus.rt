// The bus on its way through the plan.
ghost use Rattle.search.specs.Known.{Stands};

use table::inner::Tables;

// Where the bus stands, and who is still to be met: the table has a finish from there.
#[derive(Clone, Copy)]
pub struct Bus<'a> {
    pub tables: &'a Tables<'a, 'a>,
    pub riders: u32,
    pub node: usize,
    ghost stands: { Stands tables.now riders node },
}

// A step of the plan, and the bus behind it.
#[derive(Clone, Copy)]
pub struct Move<'a> {
    pub step: usize,
    pub bus: Bus<'a>,
}
