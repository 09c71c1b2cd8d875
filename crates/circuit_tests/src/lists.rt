//! Lists that several names hold, and their transposes.

use shared_list::SharedList;
use std::alloc::AllocError;
use std::process::Abort;

/// Sees the items of a list.
fn shows<R: Abort + AllocGlobal>(
    rt: &R,
    list: &SharedList<u32>,
    want: &[u32],
) -> Result<(), AllocError> {
    let items = list.share()?.into_vec(rt.alloc())?;
    assert_eq!(rt; items.as_slice(), want);
    let items = list.in_order(rt.alloc())?;
    assert_eq!(rt; items.as_slice(), want);
    Ok(())
}

/// Sees that a second hold on columns of three rows has the item that is set in it, and that the columns have it not.
fn sets_in_one_alone<R: Abort + AllocGlobal>(
    rt: &R,
    columns: &SharedList<u32>,
) -> Result<(), AllocError> {
    let mut other = columns.share()?;
    other.set(rt.alloc(), 1, 9)?;
    shows(rt, &other, &[1, 9, 2, 5, 3, 6])?;
    shows(rt, columns, &[1, 4, 2, 5, 3, 6])
}

/// A list of 1 to 6 as 2 rows of 3, its transpose, and a second hold on that, of which one item is set.
#[test]
fn copies_what_is_set_alone(rt: HostRuntime) -> Result<(), AllocError> {
    let alloc = rt.alloc();
    let rows = SharedList::new(alloc, Vec::from_slice(alloc, &[1, 2, 3, 4, 5, 6])?)?;
    let columns = rows.transposed(alloc, 2, 3, 0)?;
    sets_in_one_alone(&rt, &columns)?;
    shows(&rt, &rows, &[1, 2, 3, 4, 5, 6])?;
    let again = columns.transposed(alloc, 3, 2, 0)?;
    shows(&rt, &again, &[1, 2, 3, 4, 5, 6])
}

/// A list of so many zeros.
fn zeros<R: AllocGlobal>(rt: &R, count: usize) -> Result<SharedList<u32>, AllocError> {
    SharedList::new(rt.alloc(), vec![in rt.alloc(); 0; count]?)
}

/// Sees items at the first places, at the last, and past the end, where there is 4.
fn begins_and_ends<R: Abort>(rt: &R, list: &SharedList<u32>, first: [u32; 3], last: u32) {
    assert_eq!(rt; list.item_or(0, 4), first[0]);
    assert_eq!(rt; list.item_or(1, 4), first[1]);
    assert_eq!(rt; list.item_or(2, 4), first[2]);
    assert_eq!(rt; list.item_or(2_999, 4), last);
    assert_eq!(rt; list.item_or(3_000, 4), 4);
}

/// Three holders of a long list, of which one has changes, and one that came from it has more.
#[test]
fn changes_a_long_list_alone(rt: HostRuntime) -> Result<(), AllocError> {
    let alloc = rt.alloc();
    let list = zeros(&rt, 3_000)?;
    let mut one = list.share()?;
    one.set(alloc, 0, 7)?;
    one.set(alloc, 2_999, 9)?;
    let mut two = one.share()?;
    two.set(alloc, 2, 5)?;
    two.set(alloc, 0, 8)?;
    two.set(alloc, 3_000, 6)?;
    begins_and_ends(&rt, &list, [0, 0, 0], 0);
    begins_and_ends(&rt, &one, [7, 0, 0], 9);
    begins_and_ends(&rt, &two, [8, 0, 5], 9);
    let items = two.in_order(alloc)?;
    assert_eq!(rt;
        items.as_slice().iter().filter(|item| **item != 0).count(),
        3
    );
    begins_and_ends(
        &rt,
        &SharedList::new(alloc, two.into_vec(alloc)?)?,
        [8, 0, 5],
        9,
    );
    Ok(())
}

/// Item k is set to k + 1 for the first 200, far more than pay for a copy.
#[test]
fn sets_many_of_a_long_list(rt: HostRuntime) -> Result<(), AllocError> {
    let list = zeros(&rt, 3_000)?;
    let mut other = list.share()?;
    for k in 0..200 {
        other.set(rt.alloc(), k as usize, k + 1)?;
    }
    begins_and_ends(&rt, &list, [0, 0, 0], 0);
    begins_and_ends(&rt, &other, [1, 2, 3], 0);
    assert_eq!(rt; other.item_or(199, 4), 200);
    assert_eq!(rt; other.item_or(200, 4), 0);
    Ok(())
}

/// 1,500 rows of 2 zeros that are 2 rows of 1,500 turned. What is set in the first row and the second
/// column comes to the second row and the first column, and what is set in the third row and the first
/// column to the first row and the third column.
#[test]
fn sets_before_the_turn(rt: HostRuntime) -> Result<(), AllocError> {
    let alloc = rt.alloc();
    let list = zeros(&rt, 3_000)?;
    let mut columns = list.transposed(alloc, 2, 1_500, 0)?;
    columns.set(alloc, 1, 6)?;
    columns.set(alloc, 4, 5)?;
    begins_and_ends(&rt, &columns, [0, 6, 0], 0);
    let rows = columns.transposed(alloc, 1_500, 2, 0)?;
    begins_and_ends(&rt, &rows, [0, 0, 5], 0);
    assert_eq!(rt; rows.item_or(1_500, 4), 6);
    begins_and_ends(&rt, &list, [0, 0, 0], 0);
    Ok(())
}

#[test]
fn has_one_item(rt: HostRuntime) -> Result<(), AllocError> {
    shows(&rt, &SharedList::one(7), &[7])
}
