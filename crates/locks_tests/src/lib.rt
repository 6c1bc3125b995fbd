// Locks and what is told of them.
#![tactic(auto)]

pub mod small;

#[cfg(test)]
mod tests {
    use super::small::CASES;
    use report::report;
    use samples::built::{built, squares};
    use std::test::Fail;

    #[test]
    fn each_small_case(rt: HostRuntime) -> Result<(), Fail> {
        for case in &CASES {
            let text = report(rt.alloc(), case.bytes)?;
            assert_eq!(rt; text.as_str(), case.text, "{}", case.why);
        }
        Ok(())
    }

    // Every product lengthens the view by two bytes: 32 + 1 + 2 × 32,751 is the longest.
    #[test]
    fn the_longest_view(rt: HostRuntime) -> Result<(), Fail> {
        for (products, text) in [
            (
                32_751,
                "kind 1 inputs 1 gates 32751 outputs 1\nproducts 32751 row 65535 tape 98351 first 101 answer 131073\n",
            ),
            (32_752, "refused 3 0 327525\n"),
        ] {
            let lock = squares(rt.alloc(), products, 0)?;
            assert_eq!(rt; report(rt.alloc(), lock.as_slice())?.as_str(), text);
        }
        Ok(())
    }

    #[test]
    fn the_most_of_everything(rt: HostRuntime) -> Result<(), Fail> {
        let lock = built(
            rt.alloc(),
            2,
            [1024, 200_000, 1024],
            b"AD\0\0\0\0\0\0\x03\xff",
            b"OU\0\0\0\0\0\0\0\x01",
        )?;
        assert_eq!(rt;
            report(rt.alloc(), lock.as_slice())?.as_str(),
            "kind 2 inputs 1024 gates 200000 outputs 1024\nproducts 0 row 4128 tape 8288 first 12386 answer 8259\n"
        );
        Ok(())
    }
}
