//! One line of a job: its grammar and its parser; and the lines of a text.
#![tactic(auto)]

pub mod fields;
pub mod lines;
pub mod malformed;
pub mod text;
pub mod tokens;

#[cfg(test)]
mod tests {
    use super::lines::{Line, parse};
    use super::text::line_end;

    fn refused(line: &[u8]) -> Option<usize> {
        parse(line).err().map(|e| e.place)
    }

    #[test]
    fn formed_lines(rt: HostRuntime) {
        assert!(rt; matches!(parse(b"A -9223372036854775808"), Ok(Line::Add(i64::MIN))));
        assert!(rt;
            matches!(
                parse(b"P n1 18446744073709551615 00"),
                Ok(Line::Part([b'n', b'1'], u64::MAX, 0))
            )
        );
        assert_eq!(rt; refused(b"R"), None);
    }

    #[test]
    fn refused_lines(rt: HostRuntime) {
        assert_eq!(rt; refused(b""), Some(0));
        assert_eq!(rt; refused(b"S "), Some(1));
        assert_eq!(rt; refused(b"A  1"), Some(2));
        assert_eq!(rt; refused(b"A -9223372036854775809x"), Some(2));
        assert_eq!(rt; refused(b"V a -1"), Some(4));
        assert_eq!(rt; refused(b"P a 1"), Some(5));
    }

    #[test]
    fn ends_of_lines(rt: HostRuntime) {
        assert_eq!(rt; line_end(b"ab\n\nc", 0), 2);
        assert_eq!(rt; line_end(b"ab\n\nc", 4), 5);
    }
}
