// k-means without a demand: it is run where the tests of `fits` hold, and is left out where they do not. What is written stays flat, as in kmeans.
use answers::Unclustered;
use kmeans_assign::Given;

// Why a checked k-means has no answer: a test of `fits` does not hold, or it stopped.
#[derive(Clone, Copy, Debug, PartialEq, Eq)]
pub(crate) enum Failed {
    Unfit,
    Stopped(Unclustered),
}

impl From<Unclustered> for Failed {
    fn from(why: Unclustered) -> Failed {
        Failed::Stopped(why)
    }
}

// The epochs, a split after them if there is one to be, and the last assignment: how many draws the last of the two used.
fn cluster(
    g: Given<'_>,
    epochs: u32,
    splits: bool,
    draws: &[f64],
    centers: &mut [f32],
    assigned: &mut [u32],
    counts: &mut [u32],
) -> Result<usize, Failed> {
    if !crate::fits::framed(g) {
        return Err(Failed::Unfit);
    }
    if !crate::fits::long(g.frame, centers, assigned, counts) {
        return Err(Failed::Unfit);
    }
    if !crate::fits::drawn(draws) || 1000 < epochs {
        return Err(Failed::Unfit);
    }
    let mut used = kmeans::train(g, draws, 0, epochs, centers, assigned, counts)?;
    if splits {
        used = kmeans_split::split_center(g.frame, draws, 0, 1, centers, counts)?;
    }
    kmeans_assign::search_data(g, centers, assigned);
    Ok(used)
}

// The same in the first elements of larger buffers, as many as the frame says.
pub(crate) fn run(
    g: Given<'_>,
    epochs: u32,
    splits: bool,
    draws: &[f64],
    centers: &mut [f32],
    assigned: &mut [u32],
    counts: &mut [u32],
) -> Result<usize, Failed> {
    let long = recorded::layout::product(g.frame.centers, g.frame.w);
    let centers = centers.get_mut(..long).ok_or(Failed::Unfit)?;
    let assigned = assigned.get_mut(..g.frame.n).ok_or(Failed::Unfit)?;
    let counts = counts.get_mut(..g.frame.centers).ok_or(Failed::Unfit)?;
    cluster(g, epochs, splits, draws, centers, assigned, counts)
}
