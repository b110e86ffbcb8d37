// Where the rows of a body have to lie.
use csv_load::Inside;
use dl_values::Row;
use partitions::Layout;

/// The places of a layout: a row has to have one of them.
#[derive(Drop)]
pub struct Places<'a> {
    pub layout: &'a Layout,
}

impl<'a> Inside for Places<'a> {
    ghost use Rattle.partitions.specs.Places.{is_inside};

    ghost inside = { λ places row. is_inside places.layout.now row };

    fn holds(&self, row: &Row) -> bool {
        self.layout.place(row).is_some()
    }
}
