//! What is written into a list of the caller's.

ghost use Rattle.cc.specs.Lists.{Copied};

use super::faults::Fault;

// Copies the values to the front of the list, and tells how many they are; a list that is too short stays as it is.
pub fn copy_front<T: Copy>(values: &[T], list: &mut [T]) -> Result<usize, Fault>
    ensures copied { Copied values.now list.old list.new result }
{
    let n = values.len();
    if list.len() < n {
        return Err(Fault::Tight(n));
    }
    list[..n].copy_from_slice(values);
    Ok(n)
}

#[cfg(test)]
mod tests {
    use super::*;

    #[test]
    fn values_stand_at_the_front(rt: HostRuntime) {
        let mut list = [7, 7, 7];
        assert_eq!(rt; copy_front(&[1, 2], &mut list), Ok(2));
        assert_eq!(rt; list, [1, 2, 7]);
        assert_eq!(rt; copy_front(&[3, 4, 5, 6], &mut list), Err(Fault::Tight(4)));
        assert_eq!(rt; list, [1, 2, 7]);
    }
}
