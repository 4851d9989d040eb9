//! What the macro of a group of rows is expanded to. Each rule takes the type of the group's rows, the arguments of the
//! function that it stands in, and the lines of the group: a name, a row, and the row's form.

/// The names and rows of a group, in the order of the lines, each row as one of all groups' type.
#[macro_export]
macro_rules! names_and_rows {
    ($type:ident $all:ident; $($name:literal, $row:ident, $form:expr;)*) => {
        &[$(($name, $all::$type($type::$row))),*]
    };
}

/// The name of a row.
#[macro_export]
macro_rules! name_of_row {
    ($type:ident $op:ident; $($name:literal, $row:ident, $form:expr;)*) => {
        match $op {
            $($type::$row => $name,)*
        }
    };
}

/// The form of a row.
#[macro_export]
macro_rules! form_of_row {
    ($type:ident $op:ident; $($name:literal, $row:ident, $form:expr;)*) => {
        match $op {
            $($type::$row => $form,)*
        }
    };
}
