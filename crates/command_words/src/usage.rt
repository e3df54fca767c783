//! What the program says of itself.

/// The usage, line by line. The script that runs the program prints these strings too, so each stands on a line of its own.
pub static USAGE: [&str; 18] = [
    "usage: gnap COMMAND WORDS\n",
    "  gnap replay FILE            answers the calls in FILE, whose first line is a setup\n",
    "  gnap field item FILE        prints the canonical text of the structured field in FILE\n",
    "  gnap field list FILE        the same of a list\n",
    "  gnap field dictionary FILE  the same of a dictionary\n",
    "  gnap sign CONFIG KEY CREATED FILE  prints the request in FILE, signed by KEY of CONFIG at CREATED (0 to 253402300799, seconds since 1970)\n",
    "  gnap sign CONFIG KEY CREATED FILE NONCE  the same, with NONCE in the signature (1 to 64 letters, digits, `.`, `_` or `-`)\n",
    "  gnap verify CONFIG NOW FILE  prints which key of the setup signed the request in FILE, at the moment NOW (0 to 253402300799, seconds since 1970)\n",
    "  gnap as CONFIG LISTEN WORKERS QUOTA  serves the setup in CONFIG over HTTP, by WORKERS (1 to 64), each for QUOTA connections (0 to 1000000)\n",
    "  gnap as CONFIG LISTEN WORKERS QUOTA PAIRS  the same, and derives tokens for the servers in PAIRS from those presented to them\n",
    "  gnap sets CONFIG LISTEN WORKERS QUOTA  has the servers in CONFIG register sets of rights over HTTP, by WORKERS (1 to 64), each for QUOTA connections\n",
    "  gnap rs CONFIG LISTEN SERVER QUOTA  serves the resource server in CONFIG for QUOTA connections (0 to 1000000), the authorization server is at SERVER\n",
    "  gnap rs CONFIG LISTEN SERVER QUOTA CACHE  the same, and keeps up to CACHE replies about tokens (1 to 16384), each for 30 seconds at most\n",
    "  gnap client CONFIG ADDRESS SCRIPT  has the client in CONFIG carry out the lines of SCRIPT with the server at ADDRESS\n",
    "  gnap hash METHOD CLIENT SERVER REF URI  prints the interaction hash by METHOD (sha-256 or sha-512)\n",
    "  gnap load N START WORKERS  puts N grants (1 to 100000) through by WORKERS (1 to 64) from START (64 bits), and counts the replies of each kind\n",
    "README.md has examples, docs/FORMATS.md the formats of files and output.\n",
    "gnap 0.1.0\n",
];
