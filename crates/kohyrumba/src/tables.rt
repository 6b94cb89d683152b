// Tables of what the engine does.
pub mod limits;
pub mod settled_cases;
