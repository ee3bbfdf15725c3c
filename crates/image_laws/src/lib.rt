// No code: the laws of the configuration image, proved of the definitions that the promises of
// `image` cite. The theorems to read are in `demands`.
#![tactic(auto)]
