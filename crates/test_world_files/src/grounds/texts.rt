//! What ground files stand for.

use crate::grounds::stage::{text_of, world_text};
use std::test::Fail;

/// Ground files, and the world scripts that they stand for.
static TEXTS: [(&str, &str); 13] = [
    (
        "bt-ground 1\nsort place kitchen hall\nfact at 0\nforall X place\ncondition At_$X is at == #X\naction Go_$X timed 100\nsets at = #X\nend\ngoal At_hall",
        "bt-world 1\nfact at 0\ncondition At_kitchen is at == 1\naction Go_kitchen timed 100\nsets at = 1\ncondition At_hall is at == 2\naction Go_hall timed 100\nsets at = 2\ngoal At_hall\n",
    ),
    ("bt-ground 1", "bt-world 1\n"),
    ("bt-ground 1\r\nfact a 0\r\n", "bt-world 1\nfact a 0\n"),
    // Blank lines and comments are read over, also one that begins with a variable; a line is kept as it stands.
    (
        "bt-ground 1\n\n# a comment\nsort s one\nforall X s\n #X is a comment\n\t fact  $X 1 \n   \nend\n",
        "bt-world 1\n\t fact  one 1 \n",
    ),
    // A line is no sort, block or end unless its first word is that.
    (
        "bt-ground 1\nsorts a b\nforalls\nending\nfact end 0",
        "bt-world 1\nsorts a b\nforalls\nending\nfact end 0\n",
    ),
    // Instances stand in the order of the values, and not of their names.
    (
        "bt-ground 1\nsort s zebra ape\nforall X s\n$X #X $X$X#X#X $XY\nend",
        "bt-world 1\nzebra 1 zebrazebra11 zebraY\nape 2 apeape22 apeY\n",
    ),
    // The lines of an inner block stand in their place.
    (
        "bt-ground 1\nsort s a b\nsort t c d\nforall X s\nfirst $X\nforall Y t\n$X $Y #X #Y\nend\nlast $X\nend\nout",
        "bt-world 1\nfirst a\na c 1 1\na d 1 2\nlast a\nfirst b\nb c 2 1\nb d 2 2\nlast b\nout\n",
    ),
    (
        "bt-ground 1\nsort s a b\nforall X s\nforall Y s\nforall Z s\n$X$Y$Z\nend\nend\nend",
        "bt-world 1\naaa\naab\naba\nabb\nbaa\nbab\nbba\nbbb\n",
    ),
    // A variable may come again once its block is at its end, and a block may hold nothing.
    (
        "bt-ground 1\nsort s a\nforall X s\n$X\nend\nforall X s\nn#X\nend\nforall X s\nend",
        "bt-world 1\na\nn1\n",
    ),
    // A sort may follow a block that is at its end.
    (
        "bt-ground 1\nsort s a\nforall X s\nend\nsort t b\nforall X t\n$X\nend",
        "bt-world 1\nb\n",
    ),
    (
        "bt-ground 1\nsort s v1 v2 v3 v4 v5 v6 v7 v8 v9 v10 v11 v12 v13 v14 v15 v16\nforall X s\nn#X\nend",
        "bt-world 1\nn1\nn2\nn3\nn4\nn5\nn6\nn7\nn8\nn9\nn10\nn11\nn12\nn13\nn14\nn15\nn16\n",
    ),
    (
        "bt-ground 1\nsort  s\ta  b \nforall\tX  s\n$X\n end \n",
        "bt-world 1\na\nb\n",
    ),
    // A value may be spelled as a variable, and stays as it is.
    (
        "bt-ground 1\nsort s Y\nsort t a\nforall Y t\nforall X s\n$X $Y\nend\nend",
        "bt-world 1\nY a\n",
    ),
];

#[test]
fn texts(rt: HostRuntime) -> Result<(), Fail> {
    let alloc = rt.alloc();
    for (file, wanted) in &TEXTS {
        assert!(rt; file.len() <= 1_048_576);
        assert_eq!(rt;
            text_of(alloc, file.as_bytes())?.as_str(),
            *wanted,
            "{file}"
        );
    }
    Ok(())
}

/// Ground files, and how many rows their worlds have, or the fault of their worlds at the line of the file.
static WORLDS: [(&str, &str); 6] = [
    (
        "bt-ground 1\nsort place kitchen hall\nfact at 0\nforall X place\ncondition At_$X is at == #X\naction Go_$X timed 100\nsets at = #X\nend\ngoal At_hall",
        "4 rows",
    ),
    (
        "bt-ground 1\nsort place kitchen hall\nfact at 0\nforall X place\ncondition At_$X is at == #X\naction Go_$X timed 100\nsets at = 9223372036854775808\nend\ngoal At_hall",
        "World Range 7",
    ),
    ("bt-ground 1\n\nfact a 0\nfact a 0", "World DoubleName 4"),
    (
        "bt-ground 1\nsort s a b\nforall X s\nfact same 0\nend",
        "World DoubleName 4",
    ),
    (
        "bt-ground 1\nsort s a\nforall X s\nend\nhello",
        "World BadLine 5",
    ),
    ("bt-ground 1\ngoal G\nsort s a\nforall X s", "Unended 4"),
];

#[test]
fn worlds(rt: HostRuntime) -> Result<(), Fail> {
    let alloc = rt.alloc();
    for (file, wanted) in &WORLDS {
        assert!(rt; file.len() <= 1_048_576);
        assert_eq!(rt;
            world_text(alloc, file.as_bytes())?.as_str(),
            *wanted,
            "{file}"
        );
    }
    Ok(())
}
