//! The bytes of lines. That they are read as the array again is proved.

use std::alloc::Global;
use std::test::Fail;
use sz_cells::Shape;
use sz_spec::{Array, Value};
use sz_writing::line_of_array;

/// An array of these layers, with these cells.
fn array(
    alloc: Global,
    layers: u32,
    height: u32,
    cols: u32,
    cells: &[Value],
) -> Result<Array, Fail> {
    let shape = Shape::make_layers(layers, height, cols).ok_or("the sides are those of a shape")?;
    Ok(Array::make(shape, cells.to_vec(alloc)?).ok_or("each cell has a value")?)
}

#[test]
fn one_layer_is_an_array(rt: HostRuntime) -> Result<(), Fail> {
    let alloc = rt.alloc();
    let cells = [Some(1), None, Some(i64::MIN), Some(i64::MAX)];
    let line = line_of_array(alloc, "a", &array(alloc, 1, 2, 2, &cells)?)?;
    let text = br#"{"array":"a","cells":[[1,null],[-9223372036854775808,9223372036854775807]]}"#;
    assert_eq!(rt; line.as_slice(), text.as_slice());
    Ok(())
}

#[test]
fn more_layers_are_layers(rt: HostRuntime) -> Result<(), Fail> {
    let alloc = rt.alloc();
    let cells = [Some(1), None, Some(0), Some(-3)];
    let line = line_of_array(alloc, "sky_9", &array(alloc, 2, 1, 2, &cells)?)?;
    let text = br#"{"cells":[[[1,null]],[[0,-3]]],"layers":"sky_9"}"#;
    assert_eq!(rt; line.as_slice(), text.as_slice());
    Ok(())
}
