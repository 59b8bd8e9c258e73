//! A history of two cores, and each of its beginnings.

use crate::increment::{INCREMENT, LIMITS};
use ia_image::load;
use std::test::Fail;
use tm_hist::{Board, first_steps};

#[test]
fn each_beginning(rt: HostRuntime) -> Result<(), Fail> {
    let program = load(rt.alloc(), &INCREMENT, 0x100, 22, 65536, &[0x100, 0x100])?;
    let mut board = Board::new(rt.alloc(), &program, LIMITS, 100)?;
    for core in [0, 1, 0, 1, 0, 1, 0, 1, 1, 0, 1] {
        let _ = board.step(core);
    }
    for count in 0..=12_u64 {
        match first_steps(rt.alloc(), &board, count) {
            Ok(first) => {
                assert_eq!(rt; first.made(), count.min(11));
                for index in 0..11_usize {
                    let known = if (index as u64) < count {
                        board.history().get(index)
                    } else {
                        None
                    };
                    assert_eq!(rt; first.history().get(index), known);
                }
                if count >= 11 {
                    assert_eq!(rt; first.machine().view(), board.machine().view());
                }
            }
            Err(_) => assert!(rt; false, "refused"),
        }
    }
    Ok(())
}
