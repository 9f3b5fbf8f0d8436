// Models: the shapes that an operation reaches, read from JSON into a table of nodes.
#![tactic(auto)]

mod error;
mod floats;
mod further;
mod json_value;
mod model;
mod model_shapes;
mod name;
mod nodes;
mod operation;
mod passed;
mod pointer;
mod prelude;
mod reached;
mod shape;
mod shapes;
mod spots;
mod structure;
mod table;
mod traits;
mod wrong;
mod wrong_operation;
mod wrong_places;
mod wrong_reached;
mod wrong_shapes;
mod wrong_traits;

pub use error::JobError;
pub use floats::Floats;
pub use json_value::{items_of, members_of, text_of};
pub use model::{
    errors_of_operation, errors_with_floats, http_of_operation, schema_among, schema_of_operation,
    schema_with_floats,
};
pub use model_shapes::ModelShapes;
pub use name::is_full_name;
pub use pointer::{pointer_of, within};
pub use shape::Asked;
pub use shapes::found_at;
pub use table::{ModelTable, PlacedErrors};
pub use wrong::{
    Step, Wrong, asked_at, asked_here, in_item, in_key, unless_at, unless_here, unless_named,
};
pub use wrong_places::{
    may_have, may_have_http, shapes_of, wrong_in_errors, wrong_in_shapes, wrong_model,
};
pub use wrong_shapes::{is_object, wrong_name};
