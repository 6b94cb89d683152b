// A batch as it is given to the writer: its number and its rows.
use wire::row::Row;

#[derive(Clone, Copy)]
pub struct BatchRows<'a> {
    pub number: u16,
    pub rows: &'a [Row],
}
